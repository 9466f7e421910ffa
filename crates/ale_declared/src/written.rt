//! What declarations write, with names as numbers. Each part of it is read in one pass.
ghost use Rattle.std.specs.Prelude.{◌≡◌, IfOk, OnOk, [], ◌∷◌, ◌++◌, map};
ghost use Rattle.std.specs.List.{flat_map};
ghost use Rattle.ale_declared.specs.Names.{number, numbered, name_of};
ghost use Rattle.ale_declared.specs.Numbering.{IsNumbering};
ghost use Rattle.ale_declared.specs.Declarations.{bot, type_names, feature_names, sub_names, written_edges, written_mentions, written_ext, top_edges, types_of, features_of};

use crate::decl::{Mention, SigDecl};
use crate::names::Names;
use ale_text::Text;
use std::alloc::{AllocError, Global};

/// The types: `bot`, and then each name in a type position.
pub fn types_of(alloc: Global, decls: &[SigDecl]) -> Result<Names, AllocError>
    ensures { IfOk result (λ n. n ≡ types_of decls.now) }
{
    let mut types = only_bot(alloc)?;
    for decl in decls {
        add_types(&mut types, alloc, decl)?;
    }
    Ok(types)
}

/// The features: each name in a feature position.
pub fn features_of(alloc: Global, decls: &[SigDecl]) -> Result<Names, AllocError>
    ensures { IfOk result (λ n. n ≡ features_of decls.now) }
{
    let mut features = Names::new(alloc);
    for decl in decls {
        add_features(&mut features, alloc, decl)?;
    }
    Ok(features)
}

/// The names in `sub` lists.
fn subs_of(alloc: Global, decls: &[SigDecl]) -> Result<Names, AllocError>
    ensures { IfOk result (λ n. n ≡ numbered [] (flat_map sub_names decls.now)) }
{
    let mut subs = Names::new(alloc);
    for decl in decls {
        add_subs(&mut subs, alloc, decl)?;
    }
    Ok(subs)
}

/// `bot` alone.
fn only_bot(alloc: Global) -> Result<Names, AllocError>
    ensures { IfOk result (λ n. n ≡ bot ∷ []) }
{
    let mut names = Names::new(alloc);
    let bot = Text::of(String::from_str(alloc, "bot")?);
    names.add(alloc, &bot)?;
    Ok(names)
}

/// Adds the names in type positions of one declaration.
#[tactic(auto, using(crate::proofs::NameLemmas::numbered_append))]
fn add_types(types: &mut Names, alloc: Global, decl: &SigDecl) -> Result<(), AllocError>
    ensures { OnOk result (types.new ≡ numbered types.old (type_names decl.now)) }
{
    match decl {
        SigDecl::Kind { name, subs, intros } => {
            types.add(alloc, name)?;
            add_all(types, alloc, subs.as_slice())?;
            add_restrictions(types, alloc, intros.as_slice())?;
            Ok(())
        }
        SigDecl::Ext { names } => {
            add_all(types, alloc, names.as_slice())?;
            Ok(())
        }
    }
}

/// Adds the names in feature positions of one declaration.
fn add_features(features: &mut Names, alloc: Global, decl: &SigDecl) -> Result<(), AllocError>
    ensures { OnOk result (features.new ≡ numbered features.old (feature_names decl.now)) }
{
    if let SigDecl::Kind { intros, .. } = decl {
        add_introduced(features, alloc, intros.as_slice())?;
    }
    Ok(())
}

/// Adds the names in the `sub` list of one declaration.
fn add_subs(names: &mut Names, alloc: Global, decl: &SigDecl) -> Result<(), AllocError>
    ensures { OnOk result (names.new ≡ numbered names.old (sub_names decl.now)) }
{
    if let SigDecl::Kind { subs, .. } = decl {
        add_all(names, alloc, subs.as_slice())?;
    }
    Ok(())
}

/// Adds each name.
fn add_all(names: &mut Names, alloc: Global, added: &[Text]) -> Result<(), AllocError>
    ensures { OnOk result (names.new ≡ numbered names.old added.now) }
{
    for name in added {
        names.add(alloc, name)?;
    }
    Ok(())
}

/// Adds the feature of each `intro`.
fn add_introduced(
    features: &mut Names,
    alloc: Global,
    intros: &[(Text, Text)],
) -> Result<(), AllocError>
    ensures { OnOk result (features.new ≡ numbered features.old (map (λ i. i.0) intros.now)) }
{
    for intro in intros {
        features.add(alloc, &intro.0)?;
    }
    Ok(())
}

/// Adds the restriction of each `intro`.
fn add_restrictions(
    types: &mut Names,
    alloc: Global,
    intros: &[(Text, Text)],
) -> Result<(), AllocError>
    ensures { OnOk result (types.new ≡ numbered types.old (map (λ i. i.1) intros.now)) }
{
    for intro in intros {
        types.add(alloc, &intro.1)?;
    }
    Ok(())
}

/// The edges of `sub` lists, as they are written.
pub fn edges_of(
    alloc: Global,
    types: &Names,
    decls: &[SigDecl],
) -> Result<Vec<(usize, usize)>, AllocError>
    ensures { IfOk result (λ v. v.items ≡ flat_map (written_edges types.now) decls.now) }
{
    let mut edges = Vec::new(alloc);
    for decl in decls {
        push_edges(&mut edges, types, decl)?;
    }
    Ok(edges)
}

/// Adds the edges of one declaration.
fn push_edges(
    edges: &mut Vec<(usize, usize)>,
    types: &Names,
    decl: &SigDecl,
) -> Result<(), AllocError>
    ensures { OnOk result (edges.new.items ≡ edges.old.items ++ written_edges types.now decl.now) }
{
    if let SigDecl::Kind { name, subs, .. } = decl {
        push_below(edges, types, types.number(name), subs.as_slice())?;
    }
    Ok(())
}

/// Adds an edge from the type `above` to each name.
fn push_below(
    edges: &mut Vec<(usize, usize)>,
    types: &Names,
    above: usize,
    subs: &[Text],
) -> Result<(), AllocError>
    ensures { OnOk result (edges.new.items ≡ edges.old.items ++ map (λ s. (above, number types.now s)) subs.now) }
{
    for sub in subs {
        edges.push((above, types.number(sub)))?;
    }
    Ok(())
}

/// Adds an edge from `bot` to each other type that no `sub` list mentions.
pub fn push_tops(
    edges: &mut Vec<(usize, usize)>,
    alloc: Global,
    types: &Names,
    decls: &[SigDecl],
) -> Result<(), AllocError>
    requires { types.now ≡ types_of decls.now }
    ensures { OnOk result (edges.new.items ≡ edges.old.items ++ top_edges types.now (flat_map sub_names decls.now)) }
{
    let subs = subs_of(alloc, decls)?;
    push_unmentioned(edges, types, &subs)?;
    Ok(())
}

/// Adds an edge from `bot` to each other type that is not among `subs`. A type's number is its place.
fn push_unmentioned(
    edges: &mut Vec<(usize, usize)>,
    types: &Names,
    subs: &Names,
) -> Result<(), AllocError>
    requires first { name_of types.now 0 ≡ bot }
    requires distinct { IsNumbering types.now }
    ensures { OnOk result (edges.new.items ≡ edges.old.items ++ top_edges types.now subs.now) }
{
    for t in 1..types.count() {
        if !subs.has(types.name(t)) {
            edges.push((0, t))?;
        }
    }
    Ok(())
}

/// Which type mentions which feature.
pub fn mentions_of(
    alloc: Global,
    types: &Names,
    features: &Names,
    decls: &[SigDecl],
) -> Result<Vec<Mention>, AllocError>
    ensures { IfOk result (λ v. v.items ≡ flat_map (written_mentions types.now features.now) decls.now) }
{
    let mut mentions = Vec::new(alloc);
    for decl in decls {
        push_mentions(&mut mentions, types, features, decl)?;
    }
    Ok(mentions)
}

/// Adds the mentions of one declaration.
fn push_mentions(
    mentions: &mut Vec<Mention>,
    types: &Names,
    features: &Names,
    decl: &SigDecl,
) -> Result<(), AllocError>
    ensures { OnOk result (mentions.new.items ≡ mentions.old.items ++ written_mentions types.now features.now decl.now) }
{
    if let SigDecl::Kind { name, intros, .. } = decl {
        push_introduced(
            mentions,
            types,
            features,
            types.number(name),
            intros.as_slice(),
        )?;
    }
    Ok(())
}

/// Adds the mention of each `intro` of the type `at`.
fn push_introduced(
    mentions: &mut Vec<Mention>,
    types: &Names,
    features: &Names,
    at: usize,
    intros: &[(Text, Text)],
) -> Result<(), AllocError>
    ensures { OnOk result (mentions.new.items ≡ mentions.old.items ++ map (λ i. record { at = at; feature = number features.now i.0; restriction = number types.now i.1 }) intros.now) }
{
    for intro in intros {
        mentions.push(Mention {
            at,
            feature: features.number(&intro.0),
            restriction: types.number(&intro.1),
        })?;
    }
    Ok(())
}

/// The extensional types.
pub fn ext_of(alloc: Global, types: &Names, decls: &[SigDecl]) -> Result<Vec<usize>, AllocError>
    ensures { IfOk result (λ v. v.items ≡ flat_map (written_ext types.now) decls.now) }
{
    let mut ext = Vec::new(alloc);
    for decl in decls {
        push_ext(&mut ext, types, decl)?;
    }
    Ok(ext)
}

/// Adds the extensional types of one declaration.
fn push_ext(ext: &mut Vec<usize>, types: &Names, decl: &SigDecl) -> Result<(), AllocError>
    ensures { OnOk result (ext.new.items ≡ ext.old.items ++ written_ext types.now decl.now) }
{
    if let SigDecl::Ext { names } = decl {
        push_numbers(ext, types, names.as_slice())?;
    }
    Ok(())
}

/// Adds the number of each name.
fn push_numbers(numbers: &mut Vec<usize>, types: &Names, names: &[Text]) -> Result<(), AllocError>
    ensures { OnOk result (numbers.new.items ≡ numbers.old.items ++ map (number types.now) names.now) }
{
    for name in names {
        numbers.push(types.number(name))?;
    }
    Ok(())
}
