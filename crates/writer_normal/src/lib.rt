//! The normal form of a tree, as a tree: of every tree, whether it was read or put together by hand.
//!
//! `normal` makes it as the written grammar says it, from the inside out; each function's contract is the word of the
//! definition (`syn_grammar`'s `Normal`, `Tidy` and `Parens`) that it makes. Whether an operand gets parentheses is
//! asked of the forms on its edges and of its first three tokens, which are found where they stand: nothing is handed
//! up beside the tree. An edge is walked by one form alone, the one whose operand it is an edge of. What is walked
//! once for each form is dear only where attributes stand behind attributes, each with those behind it, and where the
//! type of a cast stands before `<`. The calls are as deep as the tree, also along operands that stand one left of the
//! other.
//!
//! What a syntax tree holds of a tree is made before that where tokens are put: `kept` makes it as the written grammar
//! says it (`syn_grammar`'s `Kept`), with a stack of the frames in which a tree stands (`specs/Frames`) in place of a
//! call for each.
//!
//! There is a normal form that no tree can hold, in which a list has two separators (`specs/Separators`). Only there
//! none is made, want of memory aside.
//!
//! The first tokens of something, and what is seen there, are `writer_built`'s. `specs/Changes` has what is changed in
//! a kind's parts, `specs/Parted` how turns are made of those that are in normal form, `specs/Peeled` and `specs/Held`
//! what is taken out of a tree and how lists are held, `specs/Marks` tokens whose marks are of the 22. In `proofs/`:
//! `Heads` (the first tokens of what is joined), `Firsts` (whether a parenthesis stands first), `Edges` (what stands
//! on the edges of an expression), `Lists` (lifetimes in front of others), `Tidying` (kinds of which nothing is
//! removed), `Emptying` (what is removed is seen before the normal form is made), `Mixing` (where two separators are
//! left in a list), `Known` (what is true of every tree), `Apartness` (raw items that are set apart), `Forming` (trees
//! by their forms), `Peeling` (what is taken out of a tree), `Forgetting` (what a kind holds), `Giving` (attributes in
//! front of an expression), `Numbering` and `Fielding` (fields by numbers), `Entering` (tokens that are put behind
//! others), `Holding` (what is held, by its form), `Frames` (what stands within frames), `Inside` (what a list ends
//! with), `Stepping` (what a step was to make).
//!
//! - `normal`: the normal form, and putting its tokens.
//! - `fault`: why there is none.
//! - `laws`: what is true of every tree.
//! - `first`: the first tokens of a tree.
//! - `sight`: whether a group in parentheses stands first.
//! - `stays`: whether an operand stays as it is.
//! - `steps`: trees made of trees that may not have been made.
//! - `fault_steps`: the same where there may be none in normal form.
//! - `paren`: forms of operands in normal form.
//! - `lifetime`: lists in which lifetimes come first.
//! - `tidy`: what is made of a kind's parts.
//! - `apart`: raw items among statements that are set apart.
//! - `kept`: what a syntax tree holds of a tree.
//! - `frame`: trees without what they go on with.
//! - `forget`: what a kind's tree holds of what was read.
//! - `stated`: attributes in front of a statement's expression, and statements that are macros.
//! - `fields`: forms behind a dot.
//! - `numbers`: numbers in plain decimal, and split at their dots.
//! - `verbatim`: what is held as its tokens.
//! - `peel`: what stands in a tree, taken out.
#![tactic(auto)]

mod apart;
pub mod fault;
mod fault_steps;
mod fields;
mod first;
mod forget;
mod frame;
pub mod kept;
pub mod laws;
mod lifetime;
pub mod normal;
mod numbers;
mod paren;
mod peel;
mod sight;
mod stated;
mod stays;
mod steps;
mod tidy;
mod verbatim;
