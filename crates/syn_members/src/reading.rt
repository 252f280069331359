//! An item of an extern block, read from tokens. Those of traits and impls are one type, which is asked of the tree of
//! `OneTraitItem` or `OneImplItem`.

ghost use Rattle.reader_table.specs.Kinds.{kind_of};
ghost use Rattle.std.specs.Prelude.{◌≡◌};
ghost use Rattle.syn_grammar.specs.Kind as k;
ghost use Rattle.syn_item.specs.ItemMembers.{form_of_foreign_item};
ghost use Rattle.syn_members.specs.Foreign.{IsForeign};

use crate::foreign::ForeignItem;
use reader_table::kind::Kind;
use reader_tree::tree::Tree;
use syn_typed::Parse;

impl<'a> Parse<'a> for ForeignItem<'a, 'a> {
    ghost kind = { k.AForeignItem };

    ghost says = { λ x tree. IsForeign (form_of_foreign_item tree) x };

    fn kind() -> Kind
        ensures { kind_of result ≡ k.AForeignItem }
    {
        Kind::AForeignItem
    }

    #[tactic(auto, using(syn_part::proofs::Derived::shaped))]
    fn view(tree: &'a Tree<'a>) -> Option<ForeignItem<'a, 'a>> {
        match ForeignItem::of(tree) {
            Some(found) => Some(found),
            None => None,
        }
    }
}
