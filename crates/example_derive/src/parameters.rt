//! An item's generic parameters, as tokens.

use crate::tokens::{put_comma, put_ident, put_mark, put_tree};
use anyhow::{Result, anyhow};
use proc_macro2::{Spacing, TokenStream};
use syn::{
    ConstParam, Elements, GenericParam, GenericParams, Generics, Lifetime, LifetimeParam, Tree,
    TypeParam,
};

/// How a generic parameter is put.
#[derive(Clone, Copy)]
pub enum Way {
    /// With its attributes and its bounds, and without its default.
    Declared,
    /// By its name alone.
    Named,
}

// Puts a lifetime that was read.
#[tactic(auto, using(proc_macro2::proofs::Marks::known_mark))]
fn put_lifetime_again(lifetime: Lifetime, out: &mut TokenStream) -> Result<()> {
    put_mark('\'', Spacing::Joint, out)?;
    put_ident(lifetime.ident, out)
}

// # [a] 'a : 'b
fn put_lifetime_param(param: &LifetimeParam, out: &mut TokenStream) -> Result<()> {
    put_tree(param.attrs, out)?;
    put_lifetime_again(param.lifetime, out)?;
    put_tree(param.colon, out)
}

// # [a] T : A
fn put_type_param(param: &TypeParam, out: &mut TokenStream) -> Result<()> {
    put_tree(param.attrs, out)?;
    put_ident(param.ident, out)?;
    put_tree(param.colon, out)
}

// const N : T
#[tactic(auto, using(proc_macro2::proofs::Marks::known_mark))]
fn put_constant(param: &ConstParam, out: &mut TokenStream) -> Result<()> {
    put_ident(param.const_token, out)?;
    put_ident(param.ident, out)?;
    put_mark(':', Spacing::Alone, out)?;
    put_tree(param.ty, out)
}

// # [a] const N : T
fn put_const_param(param: &ConstParam, out: &mut TokenStream) -> Result<()> {
    put_tree(param.attrs, out)?;
    put_constant(param, out)
}

// Puts a generic parameter with its attributes and its bounds, and without its default.
fn put_declared(parameter: &GenericParam, out: &mut TokenStream) -> Result<()> {
    match parameter {
        GenericParam::Lifetime(param) => put_lifetime_param(param, out),
        GenericParam::Type(param) => put_type_param(param, out),
        GenericParam::Const(param) => put_const_param(param, out),
    }
}

// Puts the name of a generic parameter.
fn put_named(parameter: &GenericParam, out: &mut TokenStream) -> Result<()> {
    match parameter {
        GenericParam::Lifetime(param) => put_lifetime_again(param.lifetime, out),
        GenericParam::Type(param) => put_ident(param.ident, out),
        GenericParam::Const(param) => put_ident(param.ident, out),
    }
}

// Puts a generic parameter.
fn put_parameter(parameter: &Tree, way: Way, out: &mut TokenStream) -> Result<()> {
    let Some(parameter) = GenericParam::of(parameter) else {
        return Err(anyhow!("no parameter"));
    };
    match way {
        Way::Declared => put_declared(&parameter, out),
        Way::Named => put_named(&parameter, out),
    }
}

// Puts generic parameters, with commas between them.
fn put_listed(parameters: &Elements, way: Way, out: &mut TokenStream) -> Result<()> {
    for (index, parameter) in parameters.iter().enumerate() {
        put_comma(index, out)?;
        put_parameter(parameter, way, out)?;
    }
    Ok(())
}

// What stands between the angle brackets of an item, if these stand there.
fn angled<'t, 'a>(generics: &'t Tree<'a>) -> Option<Elements<'t, 'a>> {
    let angled = Generics::of(generics)?.params?;
    Some(GenericParams::of(angled.params)?.params)
}

/// Puts an item's generic parameters in angle brackets, or nothing where there are none.
#[tactic(auto, using(proc_macro2::proofs::Marks::known_mark))]
pub fn put_parameters(generics: &Tree, way: Way, out: &mut TokenStream) -> Result<()> {
    match angled(generics) {
        Some(parameters) if !parameters.is_empty() => {
            put_mark('<', Spacing::Alone, out)?;
            put_listed(&parameters, way, out)?;
            put_mark('>', Spacing::Alone, out)
        }
        _ => Ok(()),
    }
}
