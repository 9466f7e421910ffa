//! Which macros are called in the bodies of macros.
ghost use Rattle.std.specs.Prelude.{◌≡◌, ◌++◌, map, IfOk};
ghost use Rattle.ale_macro.specs.Templates.{template_data, macro_data};
ghost use Rattle.ale_macro.specs.Calls.{calls_in, pairs, calls_of};

use crate::macros::Macro;
use crate::template::Template;
use std::alloc::{AllocError, Global};

/// Adds the pair of the macro and each that is called in the template.
#[tactic(auto, using(crate::proofs::Templates::template_rules))]
fn push_calls(
    template: &Template,
    m: usize,
    calls: &mut Vec<(usize, usize)>,
) -> Result<(), AllocError>
    ensures { IfOk result (λ _. calls.new.items ≡ calls.old.items ++ pairs m (calls_in (template_data template.now))) }
{
    match template {
        Template::OfType(_) | Template::Variable(_) | Template::Meet(_, _) => {}
        Template::At(_, inner) => push_calls(inner.get(), m, calls)?,
        Template::Differs(inner) => push_calls(inner.get(), m, calls)?,
        Template::All(templates) => {
            for conjunct in templates.as_slice() {
                push_calls(conjunct, m, calls)?;
            }
        }
        Template::Any(templates) => {
            for disjunct in templates.as_slice() {
                push_calls(disjunct, m, calls)?;
            }
        }
        Template::Call(_, called, args) => {
            calls.push((m, *called as usize))?;
            for arg in args.as_slice() {
                push_calls(arg, m, calls)?;
            }
        }
        Template::Cells(members, end) => {
            for member in members.as_slice() {
                push_calls(member, m, calls)?;
            }
            push_calls(end.get(), m, calls)?;
        }
    }
    Ok(())
}

/// The pairs of a macro and each that is called in its body.
pub fn calls(alloc: Global, macros: &[Macro]) -> Result<Vec<(usize, usize)>, AllocError>
    ensures { IfOk result (λ calls. calls.items ≡ calls_of (map macro_data macros.now)) }
{
    let mut calls = Vec::new(alloc);
    for (m, called_in) in macros.iter().enumerate() {
        push_calls(&called_in.body, m, &mut calls)?;
    }
    Ok(calls)
}
