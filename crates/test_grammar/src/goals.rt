//! Goals: a word for each form before its parts, a predicate by its number.
use ale_logic::Desc;
use ale_program::Goal;
use ale_signature::Signature;
use std::alloc::AllocError;
use test_writing::push_desc;

/// Writes descriptions one after the other.
pub fn push_descs(sig: &Signature, descs: &[Desc], out: &mut String) -> Result<(), AllocError> {
    for desc in descs {
        push_desc(sig, desc, out)?;
    }
    Ok(())
}

/// Writes a space and a goal.
pub fn push_goal(sig: &Signature, goal: &Goal, out: &mut String) -> Result<(), AllocError> {
    out.push_str(" (")?;
    match goal {
        Goal::Yes => out.push_str("true")?,
        Goal::Cut => out.push_str("cut")?,
        Goal::All(goals) => {
            out.push_str("each")?;
            for part in goals.as_slice() {
                push_goal(sig, part, out)?;
            }
        }
        Goal::Any(goals) => {
            out.push_str("either")?;
            for part in goals.as_slice() {
                push_goal(sig, part, out)?;
            }
        }
        Goal::Equal(left, right) => {
            out.push_str("equal")?;
            push_desc(sig, left, out)?;
            push_desc(sig, right, out)?;
        }
        Goal::Call(pred, args) => {
            write!(out, "call {pred}")?;
            push_descs(sig, args.as_slice(), out)?;
        }
        Goal::Not(goal) => {
            out.push_str("not")?;
            push_goal(sig, goal.get(), out)?;
        }
        Goal::IfElse(condition, goal, other) => {
            out.push_str("if")?;
            push_goal(sig, condition.get(), out)?;
            push_goal(sig, goal.get(), out)?;
            push_goal(sig, other.get(), out)?;
        }
        Goal::Once(condition, goal) => {
            out.push_str("once")?;
            push_goal(sig, condition.get(), out)?;
            push_goal(sig, goal.get(), out)?;
        }
    }
    out.push_str(")")
}

/// Writes a goal, if there is one, after its word.
pub fn push_goal_of(
    sig: &Signature,
    goal: &Option<Goal>,
    out: &mut String,
) -> Result<(), AllocError> {
    match goal {
        Some(goal) => {
            out.push_str(" goal")?;
            push_goal(sig, goal, out)
        }
        None => Ok(()),
    }
}
