//! Normal forms are read back, expressions inside: what `laws_reread_expressions` proves of expressions, by what is
//! asked of their own parts, and what `laws_reread_kinds` proves of the kinds of nodes, by what is asked of
//! expressions, is joined. There is no code.
//!
//! An expression as it is printed fits its entry (`laws_reread_kinds`): it is in normal form where it stands, and its
//! own parts fit. So it is settled (`Settled`); what is held of it binds as it does itself, and its operands stay as
//! they stand (`Held`). Its own parts are read back by the steps of their kinds, so wherever their forms may stand
//! (`Parts`, of paths by `Paths`, of macros by `Macros`, behind a dot by `Dots`, of casts by `Casts`, whose types are
//! read before `<` where they are before `<=`, by `Lesser`, of closures by `Closures`, of those that their first token
//! tells by `Starting`, of arrays, repeats, blocks and loops by `Blocks`, of which `Semicolons` tells the first two
//! apart, as `Quiet` does it with any mark, and `Loops` tells those by `for` from closures), and then it is read
//! (`Owned`) before what may follow it (`Follow`; `Ended` has the forms that end a statement or an arm by themselves,
//! and `Else` those that else may follow). For each expression that was read there is one as it is printed (`Wholes`),
//! in which a number behind a dot is split as in what is held (`Split`), each form that it is split into fits
//! (`Indices`), each form has its operands (attributes stand together, `Operands`), and those that normal form puts in
//! parentheses stand in some. Where it begins a statement, nothing else is seen there (`Statements`, which has the
//! step of statements; of macros that are items there by `NamedMacros`). Attributes in front of a statement's
//! expression stand in its normal form where they stood (`Given`), or in the parentheses that its left operand gets
//! (`Enclosed`). `Forms` has all that is to be known of expressions, `ReadBack` the laws of kinds, and `Positions`
//! those of an expression where it stands. The readers of one kind of item and of one statement have no step, as they
//! stand nowhere but by themselves: `OneKind` reads back what their entries read (`OneItems` by the verdicts on items,
//! `OneTraits`, `OneStatement` of one that needs no `;`; `OneKinds` has each). What is asked of a tree is less than
//! what the steps go by, and nothing of what stands in it: `Told` has what the tests of the entries saw, wherever it
//! was read (`ToldItems` of an item among statements, `ToldExpressions` of an expression there, by `ToldStarts` and
//! `ToldBraces`; of a macro by the word `crate` there `ToldCalls`, as by `ToldTurns` no statement begins with `.` or
//! `?`; by `ToldKinds` each entry refers to kinds that have a step). `Examples` has an expression for each law.
//!
//! - `laws`: the laws.
#![tactic(auto)]

pub mod laws;
