//! Signatures that are built from declarations, without a text of a grammar.
use ale_declared::Outline;
use ale_signature::{Row, SigDecl, SigError, Signature, Text};
use std::alloc::{AllocError, Global};

/// A text of these characters, with a space in place of each `~`.
fn text(alloc: Global, characters: &str) -> Result<Text, AllocError> {
    let mut text = String::new(alloc);
    for character in characters.chars() {
        text.push(if character == '~' { ' ' } else { character })?;
    }
    Ok(Text::of(text))
}

/// The subtypes among the words: those without `:`.
fn subtypes(alloc: Global, words: &str) -> Result<Row<Text>, AllocError> {
    let mut subs = Vec::new(alloc);
    for word in words.split(' ') {
        if !word.is_empty() && word.split_once(':').is_none() {
            subs.push(text(alloc, word)?)?;
        }
    }
    Ok(Row::of(subs))
}

/// A feature with its restriction.
fn feature(alloc: Global, feature: &str, of: &str) -> Result<(Text, Text), AllocError> {
    let feature = text(alloc, feature)?;
    Ok((feature, text(alloc, of)?))
}

/// The features among the words with their restrictions: `FEATURE:TYPE`.
fn features(alloc: Global, words: &str) -> Result<Row<(Text, Text)>, AllocError> {
    let mut intros = Vec::new(alloc);
    for word in words.split(' ') {
        if let Some((name, of)) = word.split_once(':') {
            intros.push(feature(alloc, name, of)?)?;
        }
    }
    Ok(Row::of(intros))
}

/// The declaration `TYPE SUBTYPE .. FEATURE:TYPE ..`, or `ext TYPE ..`.
fn declaration(alloc: Global, name: &str, words: &str) -> Result<SigDecl, AllocError> {
    if name == "ext" {
        Ok(SigDecl::Ext {
            names: subtypes(alloc, words)?,
        })
    } else {
        Ok(SigDecl::Kind {
            name: text(alloc, name)?,
            subs: subtypes(alloc, words)?,
            intros: features(alloc, words)?,
        })
    }
}

/// The declarations of a text, with `, ` between them.
fn declarations(alloc: Global, text: &str) -> Result<Vec<SigDecl>, AllocError> {
    let mut decls = Vec::new(alloc);
    for part in text.split(", ") {
        if let Some((name, words)) = part.split_once(' ') {
            decls.push(declaration(alloc, name, words)?)?;
        }
    }
    Ok(decls)
}

/// The declarations of lists.
const LISTS: &str = "list e_list ne_list, ne_list hd:bot tl:list";

/// The declarations that a text stands for: those of lists for `lists`, and else its own.
pub fn declared(alloc: Global, text: &str) -> Result<Vec<SigDecl>, AllocError> {
    if text == "lists" {
        declarations(alloc, LISTS)
    } else {
        declarations(alloc, text)
    }
}

/// Writes a space and a name.
fn push_name(name: &Text, out: &mut String) -> Result<(), AllocError> {
    out.push_str(" ")?;
    out.push_str(name.as_str())
}

/// Writes the names of a refusal.
fn push_names_of(error: &SigError, out: &mut String) -> Result<(), AllocError> {
    match error {
        SigError::TooManyTypes | SigError::TooManyFeatures | SigError::NoMemory => Ok(()),
        SigError::SubCycle(name) => push_name(name, out),
        SigError::Loop(name) => push_name(name, out),
        SigError::ExtNotMaximal(name) => push_name(name, out),
        SigError::FillTooLarge(name) => push_name(name, out),
        SigError::ValueClash(of, feature) => {
            push_name(of, out)?;
            push_name(feature, out)
        }
        SigError::TwoIntros(feature, one, other) => {
            push_name(feature, out)?;
            push_name(one, out)?;
            push_name(other, out)
        }
        SigError::NoJoin(one, other, first, second) => {
            push_name(one, out)?;
            push_name(other, out)?;
            push_name(first, out)?;
            push_name(second, out)
        }
    }
}

/// Writes a refusal: its word and its names.
fn push_refusal(error: &SigError, out: &mut String) -> Result<(), AllocError> {
    write!(out, "{error}")?;
    push_names_of(error, out)?;
    out.push('\n')
}

/// Writes how many types and features a signature has.
fn push_counts(sig: &Signature, out: &mut String) -> Result<(), AllocError> {
    let types = sig.type_count();
    let features = sig.feat_count();
    write!(out, "{types} types, {features} features\n")
}

/// Writes what declarations are built to.
fn push_built(built: &Result<Signature, SigError>, out: &mut String) -> Result<(), AllocError> {
    match built {
        Ok(sig) => push_counts(sig, out),
        Err(error) => push_refusal(error, out),
    }
}

/// What declarations are built to, as a text.
fn built(alloc: Global, decls: &[SigDecl]) -> Result<String, AllocError> {
    let mut out = String::new(alloc);
    push_built(&Signature::build(alloc, decls), &mut out)?;
    Ok(out)
}

/// The signature that is built from the declarations of a text.
pub fn signature_of(alloc: Global, text: &str) -> Result<String, AllocError> {
    let decls = declarations(alloc, text)?;
    built(alloc, decls.as_slice())
}

/// Writes what is declared, by numbers: the subtype edges, the mentions of features and the extensional types.
fn push_outline(outline: &Outline, out: &mut String) -> Result<(), AllocError> {
    for (over, under) in outline.edges() {
        write!(out, "{over} above {under}\n")?;
    }
    for mention in outline.mentions() {
        let at = mention.at;
        let feature = mention.feature;
        let restriction = mention.restriction;
        write!(out, "at {at} feature {feature} of {restriction}\n")?;
    }
    for of in outline.ext() {
        write!(out, "{of} extensional\n")?;
    }
    Ok(())
}

/// What declarations declare.
pub fn outline_of(alloc: Global, text: &str) -> Result<String, AllocError> {
    let decls = declarations(alloc, text)?;
    let mut out = String::new(alloc);
    match Outline::read(alloc, decls.as_slice()) {
        Ok(outline) => push_outline(&outline, &mut out)?,
        Err(_) => out.push_str("no outline\n")?,
    }
    Ok(out)
}
