//! Clauses put with their predicates.
ghost use Rattle.std.specs.Prelude.{◌≡◌, ◌++◌, ◌∷◌, [], None, IfOk, OnOk, map};
ghost use Rattle.ale_vocabulary.specs.Keys.{key};
ghost use Rattle.ale_program.specs.Views.{clause_data};
ghost use Rattle.ale_grammar.specs.Building.{bucket, put_where};

use ale_program::{Clause, Pred};
use ale_text::{Row, Text};
use std::alloc::{AllocError, Global};

/// Adds a clause to those of the predicate.
fn add_clause(alloc: Global, pred: &mut Pred, clause: Clause) -> Result<(), AllocError>
    ensures { OnOk result (pred.new ≡ record pred.old { clauses = pred.old.clauses ++ clause ∷ [] }) }
{
    let row = std::mem::replace(&mut pred.clauses, Row::of(Vec::new(alloc)));
    let mut clauses = row.into_vec();
    clauses.push(clause)?;
    pred.clauses = Row::of(clauses);
    Ok(())
}

/// A predicate with its first clause.
fn new_pred(alloc: Global, name: &Text, arity: u32, clause: Clause) -> Result<Pred, AllocError>
    ensures { IfOk result (λ p. p ≡ record { name = name.now; arity = arity; clauses = clause ∷ [] }) }
{
    let mut clauses = Vec::new(alloc);
    clauses.push(clause)?;
    let name = name.copy(alloc)?;
    Ok(Pred {
        name,
        arity,
        clauses: Row::of(clauses),
    })
}

/// Adds a predicate with its first clause.
fn push_pred(
    alloc: Global,
    preds: &mut Vec<Pred>,
    name: &Text,
    arity: u32,
    clause: Clause,
) -> Result<(), AllocError>
    ensures { OnOk result (map bucket preds.new.items ≡ put_where (map bucket preds.old.items) None (key name.now arity) (clause_data clause)) }
{
    let new = new_pred(alloc, name, arity, clause)?;
    preds.push(new)?;
    Ok(())
}

/// Puts the clause with those of the predicate with this number, or as the first of a predicate of this name and arity where
/// none has the number yet.
pub(crate) fn put_clause(
    alloc: Global,
    preds: &mut Vec<Pred>,
    place: Option<usize>,
    name: &Text,
    arity: u32,
    clause: Clause,
) -> Result<(), AllocError>
    ensures { OnOk result (map bucket preds.new.items ≡ put_where (map bucket preds.old.items) place (key name.now arity) (clause_data clause)) }
{
    let Some(place) = place else {
        return push_pred(alloc, preds, name, arity, clause);
    };
    let count = preds.as_slice().len();
    if place >= count {
        return push_pred(alloc, preds, name, arity, clause);
    }
    add_clause(alloc, &mut preds[place], clause)
}
