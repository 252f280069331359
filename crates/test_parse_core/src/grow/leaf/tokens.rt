//! What is printed and read.

use crate::grow::given::front;
use crate::grow::grown::print_behind;
use proc_macro2::TokenStream;
use std::alloc::Global;
use syn_error::ParseFault;
use syn_kinds::token;
use syn_leaf::{BinOp, Index, Lit, Member, UnOp};
use syn_parse::{Cursor, ParseBuffer};
use test_support::{Page, Stop, refused};

/// The print of an operator, an index, a member and a word behind other tokens.
pub(crate) fn printed(page: &mut Page) -> Result<(), Stop> {
    let mut tokens = front(page.alloc())?;
    print_leaves(page.alloc(), &mut tokens)?;
    write!(page, "{tokens}\n");
    Ok(())
}

fn print_leaves(alloc: Global, tokens: &mut TokenStream) -> Result<(), Stop> {
    print_behind(alloc, &BinOp::ShlAssign(token::ShlEq::default()), tokens)?;
    print_behind(alloc, &UnOp::Not(token::Not::default()), tokens)?;
    print_behind(alloc, &Index::from(7), tokens)?;
    print_behind(alloc, &Member::from(4_294_967_295), tokens)
}

/// Puts an operator, a member and a literal, one behind the other.
pub(crate) fn put_leaves(begin: Cursor<'_>, page: &mut Page) -> Result<(), Stop> {
    let mut input = ParseBuffer::new(page.alloc(), begin);
    put_operator(&mut input, page)?;
    put_member(&mut input, page)?;
    put_literal(&mut input, page)
}

fn put_operator(input: &mut ParseBuffer<'_>, page: &mut Page) -> Result<(), Stop> {
    match input.parse::<BinOp>() {
        Ok(operator) => {
            page.put(operator.text());
            Ok(())
        }
        Err(_) => Err(Stop::Changed),
    }
}

// Puts the number of a member. Where memory is refused, something is still there.
fn put_member(input: &mut ParseBuffer<'_>, page: &mut Page) -> Result<(), Stop> {
    match input.parse::<Member>() {
        Ok(Member::Unnamed(index)) => {
            let number = index.index;
            write!(page, " {number} ");
            Ok(())
        }
        Ok(Member::Named(_)) | Err(ParseFault::Syntax(_)) => Err(Stop::Changed),
        Err(ParseFault::Memory) => refused(!input.is_empty()),
    }
}

// Puts the text of a literal. Where memory is refused, it is still there.
fn put_literal(input: &mut ParseBuffer<'_>, page: &mut Page) -> Result<(), Stop> {
    match input.parse::<Lit>() {
        Ok(literal) => {
            page.put(literal.as_str());
            page.put("\n");
            Ok(())
        }
        Err(ParseFault::Syntax(_)) => Err(Stop::Changed),
        Err(ParseFault::Memory) => refused(input.peek::<Lit>()),
    }
}

/// Puts what is said where no operator stands. Where memory for the words is refused, the stream is at its start.
pub(crate) fn put_refusals(begin: Cursor<'_>, page: &mut Page) -> Result<(), Stop> {
    let mut input = ParseBuffer::new(page.alloc(), begin);
    let binary = input.parse::<BinOp>();
    put_refusal(binary, input.peek::<token::Eq>(), page)?;
    let unary = input.parse::<UnOp>();
    put_refusal(unary, input.peek::<token::Eq>(), page)
}

fn put_refusal<T: Drop>(
    read: Result<T, ParseFault>,
    stays: bool,
    page: &mut Page,
) -> Result<(), Stop> {
    match read {
        Err(ParseFault::Syntax(error)) => {
            write!(page, "{error}\n");
            Ok(())
        }
        Err(ParseFault::Memory) => refused(stays),
        Ok(_) => Err(Stop::Changed),
    }
}
