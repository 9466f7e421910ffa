//! A walk through a template and the bodies of the macros that it calls. What is still to be done stands in a list on the heap,
//! since calls that lead on from macro to macro add no nesting that would bound it.
ghost use Rattle.std.specs.Prelude.{◌≡◌, ◌<◌, ◌≤◌, IfOk, length, map, get_or, []};
ghost use Rattle.ale_expansion.specs.declared.frame.Frame.{Frame};
ghost use Rattle.ale_logic.specs.Descriptions.{description};
ghost use Rattle.ale_macro.specs.Templates.{template_data, variable, call};
ghost use Rattle.ale_macro.specs.Expansions.{expansions_of};
ghost use Rattle.ale_macro.specs.Expanding.{list_of};
ghost use Rattle.ale_macro.specs.Slots.{numbered, all_numbered};
ghost use Rattle.ale_macro.specs.Calls.{CallsKnown, AllCallsKnown};
ghost use Rattle.ale_expansion.specs.Walking.{scope_at, IsGrounded, IsKept, IsRest, base, stands, all_stand, templates, goes_on, whole, result_with, conjunction_of, disjunction_of, and_then, cell, list_after};

use crate::frame::Frame;
use crate::met::Met;
use crate::rest::{Now, Rest};
use ale_logic::Desc;
use ale_macro::{Library, ListTypes, Template};
use sqlite_items::{Boxed, Items};
use std::alloc::{AllocError, Global};

/// A walk through a template.
#[derive(Drop)]
pub struct Walk<'a> {
    pub alloc: Global,
    pub library: &'a Library,
    pub met: Met,
    pub frames: Vec<Frame<'a>>,
    pub rests: Vec<Rest<'a>>,
}

impl<'a> Walk<'a> {
    /// Does this first, in its frame, and then the rest.
    fn first(
        &mut self,
        rest: Rest<'a>,
        written: &'a Template,
        frame: usize,
    ) -> Result<Now<'a>, AllocError>
        requires grounded { IsGrounded self.old }
        requires inside { frame < length self.old.frames.items }
        requires known { CallsKnown self.old.library.now.macros (template_data written.now) }
        requires rest { IsRest self.old.library.now.macros (length self.old.frames.items) rest }
        ensures kept { IfOk result (IsKept self.new) }
        ensures value { IfOk result (λ n. whole self.new n ≡ goes_on self.old (result_with (base self.old) rest.entry (numbered self.old.met.variables (stands (base self.old) frame (template_data written.now))))) }
    {
        self.rests.push(rest)?;
        Ok(Now::Look(written, frame))
    }

    /// The variable of the frame: its argument, or its slot.
    fn variable(&mut self, number: u32, frame: usize) -> Result<Now<'a>, AllocError>
        requires grounded { IsGrounded self.old }
        requires inside { frame < length self.old.frames.items }
        ensures kept { IfOk result (IsKept self.new) }
        ensures value { IfOk result (λ n. whole self.new n ≡ goes_on self.old (numbered self.old.met.variables (stands (base self.old) frame (variable number)))) }
    {
        let here = self.frames[frame];
        match here.args.get(number as usize) {
            Some(arg) => Ok(Now::Look(arg, here.outer)),
            None => self.own_variable(number, frame),
        }
    }

    /// The variable of the frame that is no parameter.
    fn own_variable(&mut self, number: u32, frame: usize) -> Result<Now<'a>, AllocError>
        requires grounded { IsGrounded self.old }
        requires inside { frame < length self.old.frames.items }
        requires own { (f : Frame) → f ≡ get_or self.old.frames.items frame f → length f.args.now ≤ number }
        ensures kept { IfOk result (IsKept self.new) }
        ensures value { IfOk result (λ n. whole self.new n ≡ goes_on self.old (numbered self.old.met.variables (stands (base self.old) frame (variable number)))) }
    {
        let here = self.frames[frame];
        let slot = self.met.slot(here.path, number)?;
        let small = narrow(slot)?;
        Ok(Now::Have(Desc::Slot(small)))
    }

    /// The body of the macro, in a frame of its own.
    fn enter(
        &mut self,
        number: u32,
        callee: usize,
        args: &'a [Template],
        frame: usize,
    ) -> Result<Now<'a>, AllocError>
        requires grounded { IsGrounded self.old }
        requires inside { frame < length self.old.frames.items }
        requires known { CallsKnown self.old.library.now.macros (call number callee (templates args.now)) }
        ensures kept { IfOk result (IsKept self.new) }
        ensures value { IfOk result (λ n. whole self.new n ≡ goes_on self.old (numbered self.old.met.variables (stands (base self.old) frame (call number callee (templates args.now))))) }
    {
        let here = self.frames[frame];
        let path = self.met.path(here.path, number)?;
        let inner = self.frames.len();
        self.frames.push(Frame {
            path,
            args,
            outer: frame,
        })?;
        // its contract says that no macro leads back to itself, so a call stands for what the body stands for
        let _lists = self.library.lists();
        Ok(Now::Look(self.library.body(callee), inner))
    }

    /// What the call stands for: one of its arguments, or the body of the macro.
    fn call(
        &mut self,
        number: u32,
        callee: usize,
        args: &'a [Template],
        frame: usize,
    ) -> Result<Now<'a>, AllocError>
        requires grounded { IsGrounded self.old }
        requires inside { frame < length self.old.frames.items }
        requires known { CallsKnown self.old.library.now.macros (call number callee (templates args.now)) }
        ensures kept { IfOk result (IsKept self.new) }
        ensures value { IfOk result (λ n. whole self.new n ≡ goes_on self.old (numbered self.old.met.variables (stands (base self.old) frame (call number callee (templates args.now))))) }
    {
        match self.library.projection(callee) {
            Some(parameter) => Ok(Now::Look(&args[parameter as usize], frame)),
            None => self.enter(number, callee, args, frame),
        }
    }

    /// These after the conjuncts that are finished.
    #[tactic(auto, using(ale_logic::proofs::Terms::description_rules))]
    fn conjuncts(
        &mut self,
        done: Vec<Desc>,
        items: &'a [Template],
        frame: usize,
    ) -> Result<Now<'a>, AllocError>
        requires grounded { IsGrounded self.old }
        requires inside { frame < length self.old.frames.items }
        requires known { AllCallsKnown self.old.library.now.macros (templates items.now) }
        ensures kept { IfOk result (IsKept self.new) }
        ensures value { IfOk result (λ n. whole self.new n ≡ goes_on self.old (conjunction_of (map description done.items) (all_numbered self.old.met.variables (expansions_of (all_stand (base self.old) frame items.now))))) }
    {
        match items {
            [] => Ok(Now::Have(Desc::All(Items::from_vec(done)))),
            [conjunct, rest @ ..] => {
                let now = self.first(Rest::All(done, rest, frame), conjunct, frame)?;
                Ok(now)
            }
        }
    }

    /// These after the disjuncts that are finished.
    #[tactic(auto, using(ale_logic::proofs::Terms::description_rules))]
    fn disjuncts(
        &mut self,
        done: Vec<Desc>,
        items: &'a [Template],
        frame: usize,
    ) -> Result<Now<'a>, AllocError>
        requires grounded { IsGrounded self.old }
        requires inside { frame < length self.old.frames.items }
        requires known { AllCallsKnown self.old.library.now.macros (templates items.now) }
        ensures kept { IfOk result (IsKept self.new) }
        ensures value { IfOk result (λ n. whole self.new n ≡ goes_on self.old (disjunction_of (map description done.items) (all_numbered self.old.met.variables (expansions_of (all_stand (base self.old) frame items.now))))) }
    {
        match items {
            [] => Ok(Now::Have(Desc::Any(Items::from_vec(done)))),
            [disjunct, rest @ ..] => {
                let now = self.first(Rest::Any(done, rest, frame), disjunct, frame)?;
                Ok(now)
            }
        }
    }

    /// The list of these members, and what is described last.
    fn cells(
        &mut self,
        members: &'a [Template],
        end: &'a Template,
        frame: usize,
    ) -> Result<Now<'a>, AllocError>
        requires grounded { IsGrounded self.old }
        requires inside { frame < length self.old.frames.items }
        requires known { AllCallsKnown self.old.library.now.macros (templates members.now) }
        requires last { CallsKnown self.old.library.now.macros (template_data end.now) }
        ensures kept { IfOk result (IsKept self.new) }
        ensures value { IfOk result (λ n. whole self.new n ≡ goes_on self.old (numbered self.old.met.variables (list_of self.old.library.now.lists (all_stand (base self.old) frame members.now) (stands (base self.old) frame (template_data end.now))))) }
    {
        match members {
            [] => Ok(Now::Look(end, frame)),
            [member, rest @ ..] => self.first(Rest::Head(rest, end, frame), member, frame),
        }
    }

    /// The template, in its frame.
    #[tactic(auto, using(ale_logic::proofs::Terms::description_rules, ale_macro::proofs::Templates::template_rules))]
    fn look(&mut self, written: &'a Template, frame: usize) -> Result<Now<'a>, AllocError>
        requires grounded { IsGrounded self.old }
        requires inside { frame < length self.old.frames.items }
        requires known { CallsKnown self.old.library.now.macros (template_data written.now) }
        ensures kept { IfOk result (IsKept self.new) }
        ensures value { IfOk result (λ n. whole self.new n ≡ goes_on self.old (numbered self.old.met.variables (stands (base self.old) frame (template_data written.now)))) }
    {
        match written {
            Template::OfType(of) => Ok(Now::Have(Desc::OfType(*of))),
            Template::Variable(number) => self.variable(*number, frame),
            Template::At(feature, value) => self.first(Rest::At(feature), value.get(), frame),
            Template::All(items) => {
                let done = Vec::new(self.alloc);
                self.conjuncts(done, items.as_slice(), frame)
            }
            Template::Any(items) => {
                let done = Vec::new(self.alloc);
                self.disjuncts(done, items.as_slice(), frame)
            }
            Template::Differs(other) => self.first(Rest::Differs, other.get(), frame),
            Template::Meet(path, other) => {
                let path = path.copy(self.alloc)?;
                let other = other.copy(self.alloc)?;
                Ok(Now::Have(Desc::Meet(path, other)))
            }
            Template::Call(number, callee, args) => {
                self.call(*number, *callee as usize, args.as_slice(), frame)
            }
            Template::Cells(members, end) => self.cells(members.as_slice(), end.get(), frame),
        }
    }

    /// The next conjuncts, after one more that is finished.
    fn next_conjuncts(
        &mut self,
        mut done: Vec<Desc>,
        have: Desc,
        items: &'a [Template],
        frame: usize,
    ) -> Result<Now<'a>, AllocError>
        requires grounded { IsGrounded self.old }
        requires inside { frame < length self.old.frames.items }
        requires known { AllCallsKnown self.old.library.now.macros (templates items.now) }
        ensures kept { IfOk result (IsKept self.new) }
        ensures value { IfOk result (λ n. whole self.new n ≡ goes_on self.old (conjunction_of (map description done.items) (and_then (description have, self.old.met.variables) (all_numbered self.old.met.variables (expansions_of (all_stand (base self.old) frame items.now)))))) }
    {
        done.push(have)?;
        let now = self.conjuncts(done, items, frame)?;
        Ok(now)
    }

    /// The next disjuncts, after one more that is finished.
    fn next_disjuncts(
        &mut self,
        mut done: Vec<Desc>,
        have: Desc,
        items: &'a [Template],
        frame: usize,
    ) -> Result<Now<'a>, AllocError>
        requires grounded { IsGrounded self.old }
        requires inside { frame < length self.old.frames.items }
        requires known { AllCallsKnown self.old.library.now.macros (templates items.now) }
        ensures kept { IfOk result (IsKept self.new) }
        ensures value { IfOk result (λ n. whole self.new n ≡ goes_on self.old (disjunction_of (map description done.items) (and_then (description have, self.old.met.variables) (all_numbered self.old.met.variables (expansions_of (all_stand (base self.old) frame items.now)))))) }
    {
        done.push(have)?;
        let now = self.disjuncts(done, items, frame)?;
        Ok(now)
    }

    /// The list that follows a member that is finished.
    fn next_cells(
        &mut self,
        member: Desc,
        members: &'a [Template],
        end: &'a Template,
        frame: usize,
    ) -> Result<Now<'a>, AllocError>
        requires grounded { IsGrounded self.old }
        requires inside { frame < length self.old.frames.items }
        requires known { AllCallsKnown self.old.library.now.macros (templates members.now) }
        requires last { CallsKnown self.old.library.now.macros (template_data end.now) }
        ensures kept { IfOk result (IsKept self.new) }
        ensures value { IfOk result (λ n. whole self.new n ≡ goes_on self.old (list_after self.old.library.now.lists (description member, self.old.met.variables) (list_of self.old.library.now.lists (all_stand (base self.old) frame members.now) (stands (base self.old) frame (template_data end.now))))) }
    {
        self.rests.push(Rest::Tail(member))?;
        let now = self.cells(members, end, frame)?;
        Ok(now)
    }

    /// Does with the description what is still to be done with it.
    #[tactic(auto, using(ale_logic::proofs::Terms::description_rules))]
    fn resume(&mut self, rest: Rest<'a>, have: Desc) -> Result<Now<'a>, AllocError>
        requires grounded { IsGrounded self.old }
        requires rest { IsRest self.old.library.now.macros (length self.old.frames.items) rest }
        ensures kept { IfOk result (IsKept self.new) }
        ensures value { IfOk result (λ n. whole self.new n ≡ goes_on self.old (result_with (base self.old) rest.entry (description have, self.old.met.variables))) }
    {
        match rest {
            Rest::At(feature) => {
                let have = Boxed::new(self.alloc, have)?;
                Ok(Now::Have(Desc::At(*feature, have)))
            }
            Rest::Differs => {
                let have = Boxed::new(self.alloc, have)?;
                Ok(Now::Have(Desc::Differs(have)))
            }
            Rest::All(done, items, frame) => self.next_conjuncts(done, have, items, frame),
            Rest::Any(done, items, frame) => self.next_disjuncts(done, have, items, frame),
            Rest::Head(members, end, frame) => self.next_cells(have, members, end, frame),
            Rest::Tail(member) => {
                let list = cell(self.alloc, self.library.lists(), member, have)?;
                Ok(Now::Have(list))
            }
        }
    }

    /// A walk that begins in the declaration's own scope.
    pub fn start(alloc: Global, library: &'a Library, met: Met) -> Result<Walk<'a>, AllocError>
        ensures grounded { IfOk result (λ w. IsGrounded w) }
        ensures begun { IfOk result (λ w. 0 < length w.frames.items) }
        ensures none { IfOk result (λ w. w.rests.items ≡ []) }
        ensures library { IfOk result (λ w. w.library.now ≡ library.now) }
        ensures met { IfOk result (λ w. w.met ≡ met) }
        ensures root { IfOk result (λ w. scope_at (base w).scopes 0 ≡ record { path = []; args = [] }) }
    {
        let root = met.root();
        let mut frames = Vec::new(alloc);
        frames.push(Frame {
            path: root,
            args: &[],
            outer: 0,
        })?;
        Ok(Walk {
            alloc,
            library,
            met,
            frames,
            rests: Vec::new(alloc),
        })
    }

    /// The description that the template stands for.
    pub fn run(&mut self, written: &'a Template) -> Result<Desc, AllocError>
        requires grounded { IsGrounded self.old }
        requires begun { 0 < length self.old.frames.items }
        requires none { self.old.rests.items ≡ [] }
        requires known { CallsKnown self.old.library.now.macros (template_data written.now) }
        ensures { IfOk result (λ d. (description d, self.new.met.variables) ≡ numbered self.old.met.variables (stands (base self.old) 0 (template_data written.now))) }
    {
        let mut now = Now::Look(written, 0);
        'steps: for _ in 0..u64::MAX {
            now = match now {
                Now::Look(written, frame) => self.look(written, frame)?,
                Now::Have(desc) => match self.rests.pop() {
                    Some(rest) => self.resume(rest, desc)?,
                    None => return Ok(desc),
                },
            };
        }
        Err(AllocError)
    }
}

/// The slot, as descriptions write it.
fn narrow(slot: usize) -> Result<u32, AllocError>
    ensures { IfOk result (λ s. s ≡ slot) }
{
    match u32::try_from(slot) {
        Ok(small) => Ok(small),
        Err(_) => Err(AllocError),
    }
}

/// One cell of a list, with this member and this list behind it.
#[tactic(auto, using(ale_logic::proofs::Terms::description_rules))]
fn cell(alloc: Global, lists: ListTypes, member: Desc, others: Desc) -> Result<Desc, AllocError>
    ensures { IfOk result (λ d. description d ≡ cell lists (description member) (description others)) }
{
    let member = Boxed::new(alloc, member)?;
    let others = Boxed::new(alloc, others)?;
    let parts = vec![in alloc;
        Desc::OfType(lists.ne_list),
        Desc::At(lists.hd, member),
        Desc::At(lists.tl, others),
    ]?;
    Ok(Desc::All(Items::from_vec(parts)))
}
