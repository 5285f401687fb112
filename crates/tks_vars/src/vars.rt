//! The variables of scripts, and the procedures.
ghost use Rattle.std.specs.Prelude.{◌≡◌, [], length, reverse, true, false, Some, IfOk, IfSome, OnOk, OnErr, IsOk, option_copied};
ghost use Rattle.std.specs.FinMap as map;
ghost use Rattle.tks_text.specs.Fault.{Gives};
ghost use Rattle.tks_list.specs.Reading.{list_of};
ghost use Rattle.tks_vars.specs.Changing.{ReachesSo, LeadsSo, ChangesSo};
ghost use Rattle.tks_vars.specs.Links.{AreLinked};
ghost use Rattle.tks_vars.specs.Meets.{AnswersSo, IsValue, index_seen};
ghost use Rattle.tks_vars.specs.Table.{IsName};
ghost use Rattle.tks_vars.specs.declared.content.Local.TheVariants.{Own};
ghost use Rattle.tks_vars.specs.Variables.{no_variables, at_global_level, innermost, content_of, is_global, value_at, value_of, with_value, changed, global_value_at, global_value_of, with_global_value, without, exists, with_global_link, pushed, pushed_global, frame_of, pushed_with, frame_size, popped, with_procedure, grown, grown_by_value, grown_by_global_value, grown_by_link};

use crate::call::{Arguments, frame_of};
use crate::changing::{KeepList, OwnChange, Reached, Setting, ValueChange};
use crate::content::{Content, Local};
use crate::few::Few;
use crate::frame::Frame;
use crate::name::{Name, named};
use crate::procedure::Procedure;
use crate::table::Table;
use crate::writing::{link, take_global, take_local, write_global};
use std::alloc::{AllocError, Global};
use std::marker::Model;
use tks_list::{Elements, ListText};
use tks_share::{Change, Share, Shared};
use tks_text::{ErrorNumber, Failure, Txt};

/// The variables of scripts, and the procedures. Calls speak of the present frame: that of the innermost
/// procedure, or the globals where there is none and where `push_global` made them the present frame.
pub struct Vars {
    alloc: Global,
    globals: Table<Content>,
    locals: Vec<Option<Frame>>,
    procedures: Table<Procedure>,
    // Room of frames that have ended, so that further calls take no memory for theirs. Contracts see nothing of it.
    spare: Vec<Few>,
}

// Written out, so that to let go of it is one step for whoever owns it.
impl Drop for Vars {
    fn drop(self) {
        let Vars {
            alloc: _,
            globals: _,
            locals: _,
            procedures: _,
            spare: _,
        } = self;
    }
}

impl Model for Vars {
    ghost use Rattle.std.specs.Prelude.{reverse};
    ghost use Rattle.tks_vars.specs.Variables.{Variables, variables_code};

    ghost Value = { Variables };

    ghost coded = { variables_code };

    ghost view = { λ v. record { globals = v.globals; locals = reverse v.locals.items; procedures = v.procedures } };
}

// Changes a variable of the present frame's own where it stands, if there is one by this name.
fn change_own<K: Change<Content> + Copy>(
    frames: &mut [Option<Frame>],
    variable: &[u8],
    change: K,
) -> Result<Reached<K::Answer>, AllocError>
    ensures reached { IfOk result (ReachesSo (K.gives change) variable.now (reverse frames.old) (reverse frames.new)) }
    ensures err { OnErr result (frames.new ≡ frames.old) }
{
    if frames.is_empty() {
        return Ok(Reached::Global);
    }
    let top = frames.len() - 1;
    let Some(frame) = &mut frames[top] else {
        return Ok(Reached::Global);
    };
    match frame.change(variable, &mut OwnChange { change })? {
        None => Ok(Reached::Nowhere),
        Some(Some(answer)) => Ok(Reached::Changed(answer)),
        Some(None) => Ok(Reached::Global),
    }
}

// Puts a variable of the present frame's own in, where this is a procedure's.
fn insert_own(
    frames: &mut [Option<Frame>],
    variable: &[u8],
    content: Content,
) -> Result<(), AllocError>
    requires { IsName variable.now }
    ensures ok { OnOk result (reverse frames.new ≡ changed (λ frame. map.insert frame variable.now (Own content)) (reverse frames.old)) }
    ensures err { OnErr result (frames.new ≡ frames.old) }
{
    if frames.is_empty() {
        return Ok(());
    }
    let top = frames.len() - 1;
    if let Some(frame) = &mut frames[top] {
        frame.insert(variable, Local::Own(content))?;
    }
    Ok(())
}

// The present frame, or none where that is the globals.
fn innermost(locals: &[Option<Frame>]) -> Option<&Frame>
    ensures { option_copied result ≡ innermost (reverse locals.now) }
{
    match locals.last() {
        Some(Some(frame)) => Some(frame),
        _ => None,
    }
}

// How many members the list has that would grow by giving a global a value: the globals, or the elements of one.
fn grown_among(globals: &Table<Content>, part: Name<'_>) -> Option<usize>
    ensures { result ≡ grown (map.get globals.now part.entry.variable.now) (index_seen part.entry.index) (map.len globals.now) }
{
    match globals.get(part.variable) {
        Some(content) => content.grown(part.index),
        None => Some(globals.len()),
    }
}

impl Vars {
    /// No variables and no procedures, at global level.
    pub fn new(alloc: Global) -> Vars
        ensures { result ≡ no_variables }
    {
        Vars {
            alloc,
            globals: Table::new(alloc),
            locals: Vec::new(alloc),
            procedures: Table::new(alloc),
            spare: Vec::new(alloc),
        }
    }

    /// These globals and procedures, at global level.
    pub fn restore(alloc: Global, globals: Table<Content>, procedures: Table<Procedure>) -> Vars
        ensures { result ≡ at_global_level globals procedures }
    {
        Vars {
            alloc,
            globals,
            locals: Vec::new(alloc),
            procedures,
            spare: Vec::new(alloc),
        }
    }

    /// The globals.
    pub fn globals(&self) -> &Table<Content>
        ensures { result.now ≡ self.now.globals }
    {
        &self.globals
    }

    /// The procedures with their names.
    pub fn named_procedures(&self) -> &Table<Procedure>
        ensures { result.now ≡ self.now.procedures }
    {
        &self.procedures
    }

    /// How many frames were begun and not ended.
    pub fn depth(&self) -> usize
        ensures { result ≡ length self.now.locals }
    {
        self.locals.len()
    }

    // What stands under the name of a variable.
    #[inline(always)]
    fn content(&self, variable: &[u8]) -> Option<&Content>
        ensures { option_copied result ≡ content_of self.now variable.now }
    {
        match innermost(&self.locals) {
            None => self.globals.get(variable),
            Some(frame) => match frame.get(variable) {
                None => None,
                Some(Local::Own(content)) => Some(content),
                Some(Local::Link) => self.globals.get(variable),
            },
        }
    }

    // Whether the name of a variable is that of a global.
    fn is_global(&self, variable: &[u8]) -> bool
        ensures { result ≡ is_global (innermost self.now.locals) variable.now }
    {
        match innermost(&self.locals) {
            None => true,
            Some(frame) => matches!(frame.get(variable), Some(Local::Link)),
        }
    }

    // The value of a variable or an element.
    #[inline(always)]
    fn value(&self, name: &[u8]) -> Result<&ListText, ErrorNumber>
        ensures { AnswersSo (λ v. v.now) result (value_at self.now name.now) }
    {
        let Some(name) = named(name) else {
            return Err(ErrorNumber::BadName);
        };
        match self.content(name.variable) {
            Some(content) => content.value(name.index),
            None => Err(ErrorNumber::NoSuchVariable),
        }
    }

    /// The value of a variable or an element. Memory is taken for the error's subject alone.
    pub fn get(&self, name: &Txt) -> Result<&Txt, Failure>
        ensures value { Gives (λ v. v.now) result (value_of self.now name.now) }
        ensures present { IsOk (value_of self.now name.now) → IsOk result }
    {
        match self.value(name.as_bytes()) {
            Ok(value) => Ok(value.as_text()),
            Err(number) => Err(Failure::about(number, name)),
        }
    }

    // The value of a global or an element of one.
    fn global_value(&self, name: &[u8]) -> Result<&ListText, ErrorNumber>
        ensures { AnswersSo (λ v. v.now) result (global_value_at self.now name.now) }
    {
        let Some(name) = named(name) else {
            return Err(ErrorNumber::BadName);
        };
        match self.globals.get(name.variable) {
            Some(content) => content.value(name.index),
            None => Err(ErrorNumber::NoSuchVariable),
        }
    }

    /// The same as `get`, of the globals, whatever the present frame is.
    pub fn get_global(&self, name: &Txt) -> Result<&Txt, Failure>
        ensures value { Gives (λ v. v.now) result (global_value_of self.now name.now) }
        ensures present { IsOk (global_value_of self.now name.now) → IsOk result }
    {
        match self.global_value(name.as_bytes()) {
            Ok(value) => Ok(value.as_text()),
            Err(number) => Err(Failure::about(number, name)),
        }
    }

    /// Whether a variable or an element is there.
    pub fn exists(&self, name: &Txt) -> Result<bool, Failure>
        ensures { Gives (λ b. b) result (exists self.now name.now) }
    {
        let Some(part) = named(name.as_bytes()) else {
            return Err(Failure::about(ErrorNumber::BadName, name));
        };
        match self.content(part.variable) {
            Some(content) => Ok(content.is_there(part.index)),
            None => Ok(false),
        }
    }

    /// The list that the value of a variable or an element splits into, which is kept beside it, and read where it wasn't yet.
    /// None where there is no value or it splits into none, where it has fewer than 32 bytes, or where memory is refused.
    pub fn list(&mut self, name: &Txt) -> Option<Shared<Elements>>
        ensures list { IfSome result (λ l. IsValue (λ v. list_of v ≡ Some l) (value_of self.old name.now)) }
        ensures same { self.new ≡ self.old }
    {
        let Ok(value) = self.value(name.as_bytes()) else {
            return None;
        };
        let kept = value.list();
        if kept.is_some() || !value.is_long() {
            return kept;
        }
        match self.change(name, KeepList { alloc: self.alloc }) {
            Ok(Some(list)) => list,
            _ => None,
        }
    }

    // Changes what stands under the name of a variable where it stands. Where nothing does, it is told where it could.
    fn change_under<K: Change<Content> + Copy>(
        &mut self,
        variable: &[u8],
        change: K,
    ) -> Result<Reached<K::Answer>, AllocError>
        ensures reached { IfOk result (LeadsSo (K.gives change) variable.now self.old self.new) }
        ensures err { OnErr result (self.new ≡ self.old) }
    {
        match change_own(&mut self.locals, variable, change)? {
            Reached::Changed(answer) => Ok(Reached::Changed(answer)),
            Reached::Nowhere => Ok(Reached::Nowhere),
            Reached::Global => {
                let mut change = change;
                match self.globals.change(variable, &mut change)? {
                    Some(answer) => Ok(Reached::Changed(answer)),
                    None => Ok(Reached::Global),
                }
            }
        }
    }

    /// Changes the value of a variable or an element where it stands. None where there is no such variable or element: then no
    /// change was asked for. The name is looked up once in the present frame, and once among the globals where it leads there.
    pub fn change<C: Change<ListText> + Copy>(
        &mut self,
        name: &Txt,
        change: C,
    ) -> Result<Option<C::Answer>, Failure>
        ensures { ChangesSo (C.gives change) name.now self.old self.new result }
    {
        let Some(part) = named(name.as_bytes()) else {
            return Err(Failure::about(ErrorNumber::BadName, name));
        };
        let change = ValueChange {
            name,
            index: part.index,
            change,
        };
        match self.change_under(part.variable, change)? {
            Reached::Changed(answer) => answer,
            Reached::Nowhere | Reached::Global => Ok(None),
        }
    }

    /// Gives a variable or an element a value, and makes what is missing of it.
    pub fn set(&mut self, name: &Txt, value: &Txt) -> Result<(), Failure>
        ensures value { Gives (λ _. self.new) result (with_value self.old name.now value.now) }
        ensures err { OnErr result (self.new ≡ self.old) }
    {
        let copy = value.try_clone()?;
        self.set_list(name, ListText::of(copy))?;
        Ok(())
    }

    /// The same as `set`, with a text that may be known to be spelled as lists are.
    pub fn set_list(&mut self, name: &Txt, value: ListText) -> Result<(), Failure>
        ensures value { Gives (λ _. self.new) result (with_value self.old name.now value) }
        ensures err { OnErr result (self.new ≡ self.old) }
    {
        let Some(part) = named(name.as_bytes()) else {
            return Err(Failure::about(ErrorNumber::BadName, name));
        };
        let setting = Setting {
            name,
            index: part.index,
            value: &value,
        };
        match self.change_under(part.variable, setting)? {
            Reached::Changed(given) => given,
            Reached::Nowhere => {
                let content = Content::of(self.alloc, part.index, value)?;
                insert_own(&mut self.locals, part.variable, content)?;
                Ok(())
            }
            Reached::Global => {
                let content = Content::of(self.alloc, part.index, value)?;
                self.globals.insert(part.variable, content)?;
                Ok(())
            }
        }
    }

    /// The same as `set`, of the globals, whatever the present frame is.
    pub fn set_global(&mut self, name: &Txt, value: &Txt) -> Result<(), Failure>
        ensures value { Gives (λ _. self.new) result (with_global_value self.old name.now value.now) }
        ensures err { OnErr result (self.new ≡ self.old) }
    {
        let Some(part) = named(name.as_bytes()) else {
            return Err(Failure::about(ErrorNumber::BadName, name));
        };
        let copy = ListText::of(value.try_clone()?);
        write_global(self.alloc, &mut self.globals, name, part, copy)?;
        Ok(())
    }

    /// Takes a variable or an element out. A link stays, and so does an array without its last element.
    pub fn unset(&mut self, name: &Txt) -> Result<(), Failure>
        ensures value { Gives (λ _. self.new) result (without self.old name.now) }
        ensures err { OnErr result (self.new ≡ self.old) }
    {
        let Some(part) = named(name.as_bytes()) else {
            return Err(Failure::about(ErrorNumber::BadName, name));
        };
        if self.is_global(part.variable) {
            take_global(&mut self.globals, name, part)?;
            return Ok(());
        }
        let top = self.locals.len() - 1;
        let Some(frame) = &mut self.locals[top] else {
            return Ok(());
        };
        take_local(frame, name, part)?;
        Ok(())
    }

    /// Begins a frame without variables.
    pub fn push_frame(&mut self) -> Result<(), AllocError>
        ensures ok { OnOk result (self.new ≡ pushed self.old) }
        ensures err { OnErr result (self.new ≡ self.old) }
    {
        let frame = Frame::new(self.alloc)?;
        self.locals.push(Some(frame))?;
        Ok(())
    }

    /// Makes the globals the present frame, up to the `pop_frame` that ends it.
    pub fn push_global(&mut self) -> Result<(), AllocError>
        ensures ok { OnOk result (self.new ≡ pushed_global self.old) }
        ensures err { OnErr result (self.new ≡ self.old) }
    {
        self.locals.push(None)?;
        Ok(())
    }

    /// No arguments of a call, with the room of a frame that has ended where there is one.
    pub fn no_arguments(&mut self) -> Result<Arguments, AllocError>
        ensures none { IfOk result (λ a. a ≡ []) }
        ensures same { self.new ≡ self.old }
    {
        match self.spare.pop() {
            Some(room) => Ok(Arguments::in_room(room)),
            None => Arguments::new(self.alloc),
        }
    }

    /// Begins the frame of a call with these arguments. Of two with one name the first stays.
    pub fn push_frame_with(&mut self, arguments: Arguments) -> Result<(), AllocError>
        ensures ok { OnOk result (self.new ≡ pushed_with arguments self.old) }
        ensures err { OnErr result (self.new ≡ self.old) }
    {
        let frame = frame_of(self.alloc, arguments)?;
        self.locals.push(Some(frame))?;
        Ok(())
    }

    /// How many variables the present frame has.
    pub fn frame_len(&self) -> usize
        ensures { result ≡ frame_size self.now.globals (innermost self.now.locals) }
    {
        match innermost(&self.locals) {
            None => self.globals.len(),
            Some(frame) => frame.len(),
        }
    }

    /// Ends the present frame, and with it the variables of a procedure. Where none was begun nothing is done.
    pub fn pop_frame(&mut self)
        ensures { self.new ≡ popped self.old }
    {
        if let Some(Some(frame)) = self.locals.pop() {
            let _ = self.spare.push(frame.into_room());
        }
    }

    /// Makes a name of the present frame a link to the global of that name, whether there is one or not. Where
    /// the globals are the present frame nothing is done.
    pub fn link_global(&mut self, name: &Txt) -> Result<(), Failure>
        ensures value { Gives (λ _. self.new) result (with_global_link self.old name.now) }
        ensures err { OnErr result (self.new ≡ self.old) }
    {
        if self.locals.is_empty() {
            return Ok(());
        }
        let top = self.locals.len() - 1;
        let Some(frame) = &mut self.locals[top] else {
            return Ok(());
        };
        link(frame, name)?;
        Ok(())
    }

    /// Makes these names of the present frame links, as `link_global` does, where all are new in it, it has no more than so many
    /// variables then, and these are few. Tells whether it did; otherwise nothing changes.
    pub fn link_new(&mut self, names: &[Txt], most: usize) -> Result<bool, AllocError>
        ensures made { IfOk result (λ made. made ≡ true → AreLinked most names.now self.old self.new) }
        ensures unmade { IfOk result (λ made. made ≡ false → self.new ≡ self.old) }
        ensures err { OnErr result (self.new ≡ self.old) }
    {
        if innermost(&self.locals).is_none() {
            return Ok(true);
        }
        let top = self.locals.len() - 1;
        let Some(frame) = &mut self.locals[top] else {
            return Ok(true);
        };
        let made = frame.link_new(names, most)?;
        Ok(made)
    }

    /// The procedure of a name.
    pub fn procedure(&self, name: &Txt) -> Option<&Procedure>
        ensures { option_copied result ≡ map.get self.now.procedures name.now }
    {
        self.procedures.get(name.as_bytes())
    }

    /// How many procedures there are.
    pub fn procedures(&self) -> usize
        ensures { result ≡ map.len self.now.procedures }
    {
        self.procedures.len()
    }

    /// Puts a procedure under a name, in the place of the one that is there.
    pub fn set_procedure(&mut self, name: &Txt, procedure: Procedure) -> Result<(), AllocError>
        ensures ok { OnOk result (self.new ≡ with_procedure self.old name.now procedure) }
        ensures err { OnErr result (self.new ≡ self.old) }
    {
        self.procedures.insert(name.as_bytes(), procedure)?;
        Ok(())
    }

    /// How many members the list has that would grow by giving a name a value: the variables, where the
    /// name is new, or else the elements of its array. None where no list would.
    pub fn grown_by_value(&self, name: &Txt) -> Option<usize>
        ensures { result ≡ grown_by_value self.now name.now }
    {
        let name = named(name.as_bytes())?;
        let Some(frame) = innermost(&self.locals) else {
            return grown_among(&self.globals, name);
        };
        match frame.get(name.variable) {
            None => Some(frame.len()),
            Some(Local::Own(content)) => content.grown(name.index),
            Some(Local::Link) => grown_among(&self.globals, name),
        }
    }

    /// The same as `grown_by_value`, of a global's value, whatever the present frame is.
    pub fn grown_by_global_value(&self, name: &Txt) -> Option<usize>
        ensures { result ≡ grown_by_global_value self.now name.now }
    {
        grown_among(&self.globals, named(name.as_bytes())?)
    }

    /// How many variables the present frame has, where a link by this name would join them.
    pub fn grown_by_link(&self, name: &Txt) -> Option<usize>
        ensures { result ≡ grown_by_link self.now name.now }
    {
        let frame = innermost(&self.locals)?;
        let name = named(name.as_bytes())?;
        match name.index {
            None if !frame.contains(name.variable) => Some(frame.len()),
            _ => None,
        }
    }
}

impl Share for Vars {
    fn share(&self) -> Result<Vars, AllocError> {
        Ok(Vars {
            alloc: self.alloc,
            globals: self.globals.share()?,
            locals: share_frames(self.alloc, &self.locals)?,
            procedures: self.procedures.share()?,
            spare: Vec::new(self.alloc),
        })
    }
}

// An equal frame.
fn share_frame(frame: &Option<Frame>) -> Result<Option<Frame>, AllocError>
    ensures { IfOk result (λ copy. copy ≡ frame.now) }
{
    match frame {
        Some(frame) => Ok(Some(frame.share()?)),
        None => Ok(None),
    }
}

// Equal frames.
fn share_frames(alloc: Global, frames: &[Option<Frame>]) -> Result<Vec<Option<Frame>>, AllocError>
    ensures { IfOk result (λ copy. copy.items ≡ frames.now) }
{
    let mut copy = Vec::new(alloc);
    for frame in frames {
        copy.push(share_frame(frame)?)?;
    }
    Ok(copy)
}
