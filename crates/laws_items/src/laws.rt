//! Laws of items and of raw tokens: each is the contract of a function that does nothing.

ghost use Rattle.laws_items.specs.Apart.{set_apart};
ghost use Rattle.laws_items.specs.Begins.{first_of, is_any_item, is_element};
ghost use Rattle.laws_items.specs.Raws.{HasRaw, IsSetApart};
ghost use Rattle.laws_items.specs.Readers.{item_parts, ItemParts, Reader, ReadsItem, trait_reader};
ghost use Rattle.laws_items.specs.Visible.{AllVisible};
ghost use Rattle.proc_macro2.specs.Spacing.{IsWellSpaced};
ghost use Rattle.proc_macro2.specs.Token.{Token};
ghost use Rattle.std.specs.Prelude.{◌≡◌, ◌⊎◌, ℕ, Bool, false, true, List, [], ◌++◌};
ghost use Rattle.syn_grammar.specs.Derives.{Derives};
ghost use Rattle.syn_grammar.specs.Gram.{Gram, ref};
ghost use Rattle.syn_grammar.specs.Kept.{kept};
ghost use Rattle.syn_grammar.specs.Kind.{AnItem, ATrait, Kind};
ghost use Rattle.syn_grammar.specs.Look.{past_closing};
ghost use Rattle.syn_grammar.specs.Name.{the_equals};
ghost use Rattle.syn_grammar.specs.Normal.{apart, normal};
ghost use Rattle.syn_grammar.specs.Part.{has};
ghost use Rattle.syn_grammar.specs.Read.{IsDerived, IsRead};
ghost use Rattle.syn_grammar.specs.Tree.{flat, Node, Raw, Tree, Verbatim};

/// Raw tokens, whole items and the insides of groups, stand in what is kept as they were read, spacing included; and in
/// normal form as they were kept, but for the last mark of a raw item that is set apart.
pub fn raws_stay()
    ensures kept { (x : Tree) (ts : List Token) → HasRaw ts (kept x) → HasRaw ts x }
    ensures normal { (x : Tree) (ts : List Token) → HasRaw ts (normal x) → HasRaw ts x ⊎ IsSetApart ts x }
{}

/// Well spaced tokens hold no invisible group, and where the tokens that were read hold none, those of the normal form
/// don't either.
pub fn none_invisible()
    ensures spaced { (ts : List Token) → IsWellSpaced ts → AllVisible ts }
    ensures printed { (x : Tree) → AllVisible (flat x) → AllVisible (flat (normal (kept x))) }
{}

/// Where the reader of one kind of item reads one, the reader of all items reads one of the same attributes,
/// visibility and form, before the same rest; and where that reads an item of this kind that isn't raw, so does the
/// reader of the kind.
pub fn item_readers()
    ensures alone { (k l : Kind) (ts : List Token) (tree : Tree) (rest : List Token) → Reader k l
        → IsDerived k ts tree rest → (o : Tree) × (v : Tree) × (x : Tree)
        × (item_parts tree ≡ ItemParts o v (Node l x)) × ReadsItem AnItem ts o v (Node l x) rest }
    ensures among { (k l : Kind) (ts : List Token) (o v x : Tree) (rest : List Token) → Reader k l
        → ReadsItem AnItem ts o v (Node l x) rest → ReadsItem k ts o v (Node l x) rest }
{}

/// The same of the readers of traits and of aliases of traits, which have one form: the alias has a `=`.
pub fn trait_readers()
    ensures alone { (is_alias : Bool) (ts : List Token) (tree : Tree) (rest : List Token)
        → IsDerived (trait_reader is_alias) ts tree rest → (o : Tree) × (v : Tree) × (x : Tree)
        × (item_parts tree ≡ ItemParts o v (Node ATrait x)) × (has the_equals x ≡ is_alias)
        × ReadsItem AnItem ts o v (Node ATrait x) rest }
    ensures among { (is_alias : Bool) (ts : List Token) (o v x : Tree) (rest : List Token)
        → has the_equals x ≡ is_alias → ReadsItem AnItem ts o v (Node ATrait x) rest
        → ReadsItem (trait_reader is_alias) ts o v (Node ATrait x) rest }
{}

/// A look that goes to where open groups close passes the tokens of a tree whole, those of a raw item too, whatever
/// stands behind them.
pub fn trees_pass()
    ensures { (tree : Tree) (g : Gram) (rest : List Token) → Derives tree g rest → (n : ℕ) (ts : List Token)
        → past_closing n (flat tree ++ ts) ≡ past_closing n ts }
{}

/// The tokens of a normal form are well spaced where those that were read are, also where a raw form among them ends in
/// a joint mark: where all tokens were read; before others that begin as those did which followed; and before all
/// others, but of an item or a statement by itself.
pub fn well_spaced()
    ensures whole { (k : Kind) (tree : Tree) → Derives tree (ref k) [] → IsWellSpaced (flat tree)
        → IsWellSpaced (flat (normal (kept tree))) }
    ensures before { (k : Kind) (tree : Tree) (rest others : List Token) → Derives tree (ref k) rest
        → IsWellSpaced (flat tree ++ rest) → first_of rest ≡ first_of others → IsWellSpaced others
        → IsWellSpaced (flat (normal (kept tree)) ++ others) }
    ensures anywhere { (k : Kind) (tree : Tree) (rest others : List Token) → is_element k ≡ false
        → Derives tree (ref k) rest → IsWellSpaced (flat tree ++ rest) → IsWellSpaced others
        → IsWellSpaced (flat (normal (kept tree)) ++ others) }
{}

/// An item that was read, raw or not, is read as the same tree before whatever follows it: it ends in a semicolon or in
/// braces, and no test looks behind that. So a raw one is read back from its tokens.
pub fn items_stay()
    ensures read { (k : Kind) (tree : Tree) (rest next : List Token) → is_any_item k ≡ true
        → Derives tree (ref k) rest → Derives tree (ref k) next }
    ensures raw { (k : Kind) (x : Tree) (rest next : List Token) → is_any_item k ≡ true
        → Derives (Node k (Verbatim x)) (ref k) rest
        → IsRead k (flat (normal (kept (Node k (Verbatim x)))) ++ next) (normal (kept (Node k (Verbatim x)))) next }
{}

/// An item that was read, raw or not, is read before whatever follows it with its last mark set apart too, as the same
/// tree but for how that mark is spaced: it is a semicolon, and no verdict looks at how one is spaced. So a raw one
/// whose last mark normal form sets apart is read back.
pub fn items_set_apart()
    ensures read { (k : Kind) (tree : Tree) (rest next : List Token) → is_any_item k ≡ true
        → Derives tree (ref k) rest
        → Derives (set_apart tree) (ref k) next × (flat (set_apart tree) ≡ apart (flat tree)) }
    ensures raw { (k : Kind) (x : Tree) (rest next : List Token) → is_any_item k ≡ true
        → Derives (Node k (Verbatim x)) (ref k) rest
        → IsRead k (apart (flat x) ++ next) (Node k (Raw (apart (flat x)))) next }
{}
