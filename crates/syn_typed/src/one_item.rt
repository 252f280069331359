//! Items of one kind that are read by themselves, with their attributes and their visibility.

ghost use Rattle.reader_table.specs.Kinds.{kind_of};
ghost use Rattle.proc_macro2.specs.Token.{Token};
ghost use Rattle.std.specs.Prelude.{◌≡◌, List, MatchOption};
ghost use Rattle.syn_typed.specs.OneItem.{one_item};
ghost use Rattle.syn_data.specs.Items.{IsClosed, item_enum, item_extern_crate, item_static, item_struct, item_union};
ghost use Rattle.syn_data.specs.Items.{item_use};
ghost use Rattle.syn_grammar.specs.Derives.{Derives};
ghost use Rattle.syn_grammar.specs.Gram.{ref};
ghost use Rattle.syn_grammar.specs.Kind as k;
ghost use Rattle.syn_grammar.specs.Lists.{only};
ghost use Rattle.syn_grammar.specs.Table.{table};
ghost use Rattle.syn_grammar.specs.Tree.{Tree as GivenTree};
ghost use Rattle.syn_item.specs.ItemAliases.{IsOrderIn, item_const, item_type};
ghost use Rattle.syn_item.specs.ItemFunctions.{IsItemFn};
ghost use Rattle.syn_item.specs.ItemImpls.{item_impl};
ghost use Rattle.syn_item.specs.ItemModules.{item_foreign_mod, item_mod};

use crate::typed::Parse;
use reader_table::kind::Kind;
use reader_tree::tree::Tree;
use syn_data::item::{ItemEnum, ItemExternCrate, ItemStatic, ItemStruct, ItemUnion, ItemUse};
use syn_item::alias::ItemType;
use syn_item::constant::ItemConst;
use syn_item::entry::ItemParts;
use syn_item::function::ItemFn;
use syn_item::impls::ItemImpl;
use syn_item::modules::{ItemForeignMod, ItemMod};

/// An item of one kind, read by itself with its attributes and its visibility, as `parse2::<OneItem<ItemFn>>(&arena,
/// &buffer)`. So are read `ItemStruct`, `ItemEnum`, `ItemUnion`, `ItemFn`, `ItemImpl`, `ItemMod`, `ItemForeignMod`,
/// `ItemUse`, `ItemExternCrate`, `ItemConst`, `ItemStatic` and `ItemType`; a trait is read as `OneTrait`.
///
/// Where an item of any kind may stand, `AnyItem` is read, and where one of this kind does, with the same attributes,
/// visibility and form (`laws::item_readers`). An item of which that keeps the tokens alone, as a function without a
/// body, is refused here.
#[derive(Clone, Copy)]
pub struct OneItem<'a, T> {
    /// Its attributes, as a form of the kind `OuterAttributes`: `OuterAttributes::of` has each.
    pub attrs: &'a Tree<'a>,
    /// Its visibility, as a form of the kind `Visibility`: `Visibility::of` says which.
    pub vis: &'a Tree<'a>,
    /// The item that stands behind them.
    pub item: T,
}

// An item that is kept as it was read, as its parts. What was read as an item of one kind by itself is one, of that
// kind, and what stands behind its attributes and its visibility was read as a form of the kind that is asked there.
fn parts_of<'a>(tree: &'a Tree<'a>) -> Option<ItemParts<'a, 'a>>
    ensures { MatchOption result
        ((i j : k.Kind) (rest : List Token) → table i ≡ only j → Derives tree.now (ref i) rest → ⊥)
        (λ x. (tree.now ≡ one_item (kind_of x.kind) x.attrs x.vis x.item.now) × ((i j : k.Kind) (rest : List Token)
        → table i ≡ only j → Derives tree.now (ref i) rest → (kind_of x.kind ≡ i) × Derives x.item.now (ref j) rest)) }
{
    match ItemParts::of(tree) {
        Some(parts) => Some(parts),
        None => None,
    }
}

impl<'a> Parse<'a> for OneItem<'a, ItemStruct<'a, 'a>> {
    ghost kind = { k.ItemStruct };

    ghost says = { λ x tree. IsClosed x.item.fields x.item.semi_token × (tree ≡ one_item k.ItemStruct x.attrs x.vis
        (item_struct x.item)) };

    fn kind() -> Kind
        ensures { kind_of result ≡ k.ItemStruct }
    {
        Kind::ItemStruct
    }

    fn view(tree: &'a Tree<'a>) -> Option<OneItem<'a, ItemStruct<'a, 'a>>> {
        let Some(parts) = parts_of(tree) else {
            return None;
        };
        let Kind::ItemStruct = parts.kind else {
            return None;
        };
        match ItemStruct::of(parts.item) {
            Some(item) => Some(OneItem {
                attrs: parts.attrs,
                vis: parts.vis,
                item,
            }),
            None => None,
        }
    }
}

impl<'a> Parse<'a> for OneItem<'a, ItemEnum<'a, 'a>> {
    ghost kind = { k.ItemEnum };

    ghost says = { λ x tree. tree ≡ one_item k.ItemEnum x.attrs x.vis (item_enum x.item) };

    fn kind() -> Kind
        ensures { kind_of result ≡ k.ItemEnum }
    {
        Kind::ItemEnum
    }

    fn view(tree: &'a Tree<'a>) -> Option<OneItem<'a, ItemEnum<'a, 'a>>> {
        let Some(parts) = parts_of(tree) else {
            return None;
        };
        let Kind::ItemEnum = parts.kind else {
            return None;
        };
        match ItemEnum::of(parts.item) {
            Some(item) => Some(OneItem {
                attrs: parts.attrs,
                vis: parts.vis,
                item,
            }),
            None => None,
        }
    }
}

impl<'a> Parse<'a> for OneItem<'a, ItemUnion<'a, 'a>> {
    ghost kind = { k.ItemUnion };

    ghost says = { λ x tree. tree ≡ one_item k.ItemUnion x.attrs x.vis (item_union x.item) };

    fn kind() -> Kind
        ensures { kind_of result ≡ k.ItemUnion }
    {
        Kind::ItemUnion
    }

    fn view(tree: &'a Tree<'a>) -> Option<OneItem<'a, ItemUnion<'a, 'a>>> {
        let Some(parts) = parts_of(tree) else {
            return None;
        };
        let Kind::ItemUnion = parts.kind else {
            return None;
        };
        match ItemUnion::of(parts.item) {
            Some(item) => Some(OneItem {
                attrs: parts.attrs,
                vis: parts.vis,
                item,
            }),
            None => None,
        }
    }
}

impl<'a> Parse<'a> for OneItem<'a, ItemFn<'a, 'a>> {
    ghost kind = { k.ItemFn };

    ghost says = { λ x tree. (y : GivenTree) × (tree ≡ one_item k.ItemFn x.attrs x.vis y) × IsItemFn x.item y };

    fn kind() -> Kind
        ensures { kind_of result ≡ k.ItemFn }
    {
        Kind::ItemFn
    }

    fn view(tree: &'a Tree<'a>) -> Option<OneItem<'a, ItemFn<'a, 'a>>> {
        let Some(parts) = parts_of(tree) else {
            return None;
        };
        let Kind::ItemFn = parts.kind else {
            return None;
        };
        match ItemFn::of(parts.item) {
            Some(item) => Some(OneItem {
                attrs: parts.attrs,
                vis: parts.vis,
                item,
            }),
            None => None,
        }
    }
}

impl<'a> Parse<'a> for OneItem<'a, ItemImpl<'a, 'a>> {
    ghost kind = { k.ItemImpl };

    ghost says = { λ x tree. tree ≡ one_item k.ItemImpl x.attrs x.vis (item_impl x.item) };

    fn kind() -> Kind
        ensures { kind_of result ≡ k.ItemImpl }
    {
        Kind::ItemImpl
    }

    fn view(tree: &'a Tree<'a>) -> Option<OneItem<'a, ItemImpl<'a, 'a>>> {
        let Some(parts) = parts_of(tree) else {
            return None;
        };
        let Kind::ItemImpl = parts.kind else {
            return None;
        };
        match ItemImpl::of(parts.item) {
            Some(item) => Some(OneItem {
                attrs: parts.attrs,
                vis: parts.vis,
                item,
            }),
            None => None,
        }
    }
}

impl<'a> Parse<'a> for OneItem<'a, ItemMod<'a, 'a>> {
    ghost kind = { k.ItemMod };

    ghost says = { λ x tree. tree ≡ one_item k.ItemMod x.attrs x.vis (item_mod x.item) };

    fn kind() -> Kind
        ensures { kind_of result ≡ k.ItemMod }
    {
        Kind::ItemMod
    }

    fn view(tree: &'a Tree<'a>) -> Option<OneItem<'a, ItemMod<'a, 'a>>> {
        let Some(parts) = parts_of(tree) else {
            return None;
        };
        let Kind::ItemMod = parts.kind else {
            return None;
        };
        match ItemMod::of(parts.item) {
            Some(item) => Some(OneItem {
                attrs: parts.attrs,
                vis: parts.vis,
                item,
            }),
            None => None,
        }
    }
}

impl<'a> Parse<'a> for OneItem<'a, ItemForeignMod<'a, 'a>> {
    ghost kind = { k.ItemForeignMod };

    ghost says = { λ x tree. tree ≡ one_item k.ItemForeignMod x.attrs x.vis (item_foreign_mod x.item) };

    fn kind() -> Kind
        ensures { kind_of result ≡ k.ItemForeignMod }
    {
        Kind::ItemForeignMod
    }

    fn view(tree: &'a Tree<'a>) -> Option<OneItem<'a, ItemForeignMod<'a, 'a>>> {
        let Some(parts) = parts_of(tree) else {
            return None;
        };
        let Kind::ItemForeignMod = parts.kind else {
            return None;
        };
        match ItemForeignMod::of(parts.item) {
            Some(item) => Some(OneItem {
                attrs: parts.attrs,
                vis: parts.vis,
                item,
            }),
            None => None,
        }
    }
}

impl<'a> Parse<'a> for OneItem<'a, ItemUse<'a, 'a>> {
    ghost kind = { k.ItemUse };

    ghost says = { λ x tree. tree ≡ one_item k.ItemUse x.attrs x.vis (item_use x.item) };

    fn kind() -> Kind
        ensures { kind_of result ≡ k.ItemUse }
    {
        Kind::ItemUse
    }

    fn view(tree: &'a Tree<'a>) -> Option<OneItem<'a, ItemUse<'a, 'a>>> {
        let Some(parts) = parts_of(tree) else {
            return None;
        };
        let Kind::ItemUse = parts.kind else {
            return None;
        };
        match ItemUse::of(parts.item) {
            Some(item) => Some(OneItem {
                attrs: parts.attrs,
                vis: parts.vis,
                item,
            }),
            None => None,
        }
    }
}

impl<'a> Parse<'a> for OneItem<'a, ItemExternCrate<'a>> {
    ghost kind = { k.ItemExternCrate };

    ghost says = { λ x tree. tree ≡ one_item k.ItemExternCrate x.attrs x.vis (item_extern_crate x.item) };

    fn kind() -> Kind
        ensures { kind_of result ≡ k.ItemExternCrate }
    {
        Kind::ItemExternCrate
    }

    fn view(tree: &'a Tree<'a>) -> Option<OneItem<'a, ItemExternCrate<'a>>> {
        let Some(parts) = parts_of(tree) else {
            return None;
        };
        let Kind::ItemExternCrate = parts.kind else {
            return None;
        };
        match ItemExternCrate::of(parts.item) {
            Some(item) => Some(OneItem {
                attrs: parts.attrs,
                vis: parts.vis,
                item,
            }),
            None => None,
        }
    }
}

impl<'a> Parse<'a> for OneItem<'a, ItemConst<'a, 'a>> {
    ghost kind = { k.ItemConst };

    ghost says = { λ x tree. tree ≡ one_item k.ItemConst x.attrs x.vis (item_const x.item) };

    fn kind() -> Kind
        ensures { kind_of result ≡ k.ItemConst }
    {
        Kind::ItemConst
    }

    fn view(tree: &'a Tree<'a>) -> Option<OneItem<'a, ItemConst<'a, 'a>>> {
        let Some(parts) = parts_of(tree) else {
            return None;
        };
        let Kind::ItemConst = parts.kind else {
            return None;
        };
        match ItemConst::of(parts.item) {
            Some(item) => Some(OneItem {
                attrs: parts.attrs,
                vis: parts.vis,
                item,
            }),
            None => None,
        }
    }
}

impl<'a> Parse<'a> for OneItem<'a, ItemStatic<'a, 'a>> {
    ghost kind = { k.ItemStatic };

    ghost says = { λ x tree. tree ≡ one_item k.ItemStatic x.attrs x.vis (item_static x.item) };

    fn kind() -> Kind
        ensures { kind_of result ≡ k.ItemStatic }
    {
        Kind::ItemStatic
    }

    fn view(tree: &'a Tree<'a>) -> Option<OneItem<'a, ItemStatic<'a, 'a>>> {
        let Some(parts) = parts_of(tree) else {
            return None;
        };
        let Kind::ItemStatic = parts.kind else {
            return None;
        };
        match ItemStatic::of(parts.item) {
            Some(item) => Some(OneItem {
                attrs: parts.attrs,
                vis: parts.vis,
                item,
            }),
            None => None,
        }
    }
}

impl<'a> Parse<'a> for OneItem<'a, ItemType<'a, 'a>> {
    ghost kind = { k.ItemType };

    ghost says = { λ x tree. (tree ≡ one_item k.ItemType x.attrs x.vis (item_type x.item))
        × IsOrderIn x.item.place x.item.where_order };

    fn kind() -> Kind
        ensures { kind_of result ≡ k.ItemType }
    {
        Kind::ItemType
    }

    fn view(tree: &'a Tree<'a>) -> Option<OneItem<'a, ItemType<'a, 'a>>> {
        let Some(parts) = parts_of(tree) else {
            return None;
        };
        let Kind::ItemType = parts.kind else {
            return None;
        };
        match ItemType::of(parts.item) {
            Some(item) => Some(OneItem {
                attrs: parts.attrs,
                vis: parts.vis,
                item,
            }),
            None => None,
        }
    }
}
