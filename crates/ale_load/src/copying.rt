//! Copies of declarations of types.
ghost use Rattle.std.specs.Prelude.{◌≡◌, IfOk};

use ale_declared::SigDecl;
use ale_term::add;
use ale_text::{Row, Text};
use std::alloc::{AllocError, Global};

// Copies names.
fn copy_names(alloc: Global, names: &[Text]) -> Result<Row<Text>, AllocError>
    ensures { IfOk result (λ r. r ≡ names.now) }
{
    let mut copied = Vec::new(alloc);
    for name in names {
        add(&mut copied, name.copy(alloc)?)?;
    }
    Ok(Row::of(copied))
}

// Copies features with their restrictions.
fn copy_features(alloc: Global, features: &[(Text, Text)]) -> Result<Row<(Text, Text)>, AllocError>
    ensures { IfOk result (λ r. r ≡ features.now) }
{
    let mut copied = Vec::new(alloc);
    for feature in features {
        add(
            &mut copied,
            (feature.0.copy(alloc)?, feature.1.copy(alloc)?),
        )?;
    }
    Ok(Row::of(copied))
}

/// Copies a declaration of types.
pub(crate) fn copy_declared(alloc: Global, decl: &SigDecl) -> Result<SigDecl, AllocError>
    ensures { IfOk result (λ d. d ≡ decl.now) }
{
    match decl {
        SigDecl::Kind { name, subs, intros } => Ok(SigDecl::Kind {
            name: name.copy(alloc)?,
            subs: copy_names(alloc, subs.as_slice())?,
            intros: copy_features(alloc, intros.as_slice())?,
        }),
        SigDecl::Ext { names } => Ok(SigDecl::Ext {
            names: copy_names(alloc, names.as_slice())?,
        }),
    }
}
