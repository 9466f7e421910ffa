//! The signature that the declarations of types among others build.
use ale_declaration::Declaration;
use ale_signature::{Row, SigDecl, SigError, Signature, Text};
use std::alloc::{AllocError, Global};

/// Copies names.
fn copy_names(alloc: Global, names: &[Text]) -> Result<Row<Text>, AllocError> {
    let mut copied = Vec::new(alloc);
    for name in names {
        copied.push(name.copy(alloc)?)?;
    }
    Ok(Row::of(copied))
}

/// Copies features with their restrictions.
fn copy_features(
    alloc: Global,
    features: &[(Text, Text)],
) -> Result<Row<(Text, Text)>, AllocError> {
    let mut copied = Vec::new(alloc);
    for feature in features {
        copied.push((feature.0.copy(alloc)?, feature.1.copy(alloc)?))?;
    }
    Ok(Row::of(copied))
}

/// Copies a declaration of types.
fn copy_types(alloc: Global, types: &SigDecl) -> Result<SigDecl, AllocError> {
    match types {
        SigDecl::Kind { name, subs, intros } => Ok(SigDecl::Kind {
            name: name.copy(alloc)?,
            subs: copy_names(alloc, subs.as_slice())?,
            intros: copy_features(alloc, intros.as_slice())?,
        }),
        SigDecl::Ext { names } => Ok(SigDecl::Ext {
            names: copy_names(alloc, names.as_slice())?,
        }),
    }
}

/// The declarations of types.
fn types_of(alloc: Global, decls: &[Declaration]) -> Result<Vec<SigDecl>, AllocError> {
    let mut types = Vec::new(alloc);
    for decl in decls {
        if let Declaration::Sig(found) = decl {
            types.push(copy_types(alloc, found)?)?;
        }
    }
    Ok(types)
}

/// The signature that declarations build.
pub fn signature_of(alloc: Global, decls: &[Declaration]) -> Result<Signature, SigError> {
    match types_of(alloc, decls) {
        Ok(types) => Signature::build(alloc, types.as_slice()),
        Err(_) => Err(SigError::NoMemory),
    }
}
