//! What names mean, and what descriptions stand for by them.
ghost use Rattle.std.specs.Prelude.{◌≡◌, IfOk, map};
ghost use Rattle.ale_term.specs.Terms.{term_data};
ghost use Rattle.ale_logic.specs.Descriptions.{description, descriptions_of};
ghost use Rattle.ale_vocabulary.specs.First.{AllRight};
ghost use Rattle.ale_vocabulary.specs.Knowing.{IsUnknown};
ghost use Rattle.ale_vocabulary.specs.Mentions.{mentions, mentions_of_each};
ghost use Rattle.ale_describe.specs.Known.{IsKnownTerm, AreKnownEach};
ghost use Rattle.ale_describe.specs.Names.{HaveKeys};
ghost use Rattle.ale_describe.specs.Describing.{described, each_described};

use crate::scope::Scope;
use crate::templates::templated;
use ale_expansion::expand;
use ale_logic::Desc;
use ale_macro::Library;
use ale_signature::Signature;
use ale_term::Term;
use ale_text::Row;
use ale_vocabulary::Vocabulary;
use std::alloc::{AllocError, Global};
use std::marker::Model;

/// What names mean after a grammar was read: the macros and predicates that they are of, and what each macro is. Contracts see
/// a NamesData.
#[derive(Drop)]
pub struct Names {
    vocabulary: Vocabulary,
    library: Library,
}

impl Model for Names {
    ghost use Rattle.ale_describe.specs.Names.{NamesData, HaveKeys};
    ghost use Rattle.ale_describe.specs.Codes.{names_code};

    ghost Value = { NamesData };

    ghost coded = { names_code };

    ghost view = { λ n. record { vocabulary = n.vocabulary; library = n.library } };

    ghost invariant = { λ n. HaveKeys n.vocabulary.macros n.library.macros };
}

impl Names {
    /// What these names mean, where the library has the macros that they are of, in order. It takes no memory.
    pub fn of(vocabulary: Vocabulary, library: Library) -> Names
        requires { HaveKeys vocabulary.macros library.macros }
        ensures { result ≡ record { vocabulary = vocabulary; library = library } }
    {
        Names {
            vocabulary,
            library,
        }
    }

    /// The macros and predicates.
    pub fn vocabulary(&self) -> &Vocabulary
        ensures { result.now ≡ self.now.vocabulary }
    {
        &self.vocabulary
    }

    /// What each macro is.
    pub fn library(&self) -> &Library
        ensures library { result.now ≡ self.now.library }
        ensures keys { HaveKeys self.now.vocabulary.macros self.now.library.macros }
    {
        &self.library
    }

    /// The description that the written one stands for, in the scope of its declaration, to which its variables are added. All
    /// of its names are known. The error is want of memory, also where there are more than 2^32 variables.
    pub fn describe(
        &self,
        alloc: Global,
        sig: &Signature,
        scope: &mut Scope,
        term: &Term,
    ) -> Result<Desc, AllocError>
        requires known { AllRight (IsUnknown sig.now self.now.vocabulary) (mentions (term_data term.now)) }
        ensures { IfOk result (λ d. (description d, scope.new) ≡ described sig.now self.now scope.old (term_data term.now)) }
    {
        self.described(alloc, sig, scope, term)
    }

    /// The same, where what is known is told along the description.
    pub(crate) fn described(
        &self,
        alloc: Global,
        sig: &Signature,
        scope: &mut Scope,
        term: &Term,
    ) -> Result<Desc, AllocError>
        requires known { IsKnownTerm sig.now self.now.vocabulary (term_data term.now) }
        ensures { IfOk result (λ d. (description d, scope.new) ≡ described sig.now self.now scope.old (term_data term.now)) }
    {
        let template = templated(alloc, sig, &self.vocabulary, &mut scope.written, term)?;
        let desc = expand(alloc, &self.library, &mut scope.variables, &template)?;
        Ok(desc)
    }

    /// The descriptions that the written ones stand for, one after another in one scope.
    pub fn describe_each(
        &self,
        alloc: Global,
        sig: &Signature,
        scope: &mut Scope,
        terms: &[Term],
    ) -> Result<Row<Desc>, AllocError>
        requires known { AllRight (IsUnknown sig.now self.now.vocabulary) (mentions_of_each (map term_data terms.now)) }
        ensures { IfOk result (λ ds. (descriptions_of (map description ds), scope.new) ≡ each_described sig.now self.now scope.old (map term_data terms.now)) }
    {
        self.each_described(alloc, sig, scope, terms)
    }

    /// The same, where what is known is told along the descriptions.
    pub(crate) fn each_described(
        &self,
        alloc: Global,
        sig: &Signature,
        scope: &mut Scope,
        terms: &[Term],
    ) -> Result<Row<Desc>, AllocError>
        requires known { AreKnownEach sig.now self.now.vocabulary (map term_data terms.now) }
        ensures { IfOk result (λ ds. (descriptions_of (map description ds), scope.new) ≡ each_described sig.now self.now scope.old (map term_data terms.now)) }
    {
        let mut found = Vec::new(alloc);
        for term in terms {
            let desc = self.described(alloc, sig, scope, term)?;
            found.push(desc)?;
        }
        Ok(Row::of(found))
    }
}
