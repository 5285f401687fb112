//! Tags, and what becomes of them.
ghost use Rattle.std.specs.Prelude.{◌≡◌, ◌<◌, ◌≤◌, ◌^◌, ◌∷◌, ◌+◌, ◌++◌, [], map, take, drop, not, true, false, IfOk, OnOk, OnErr, length};
ghost use Rattle.std.specs.List.{AllByRecursion, prefix_len};
ghost use Rattle.tks_text.specs.Short.{IsShort};
ghost use Rattle.tks_lines.specs.Lines.{Differ, is_tag, is_around, is_among, with_tag, with_tags, without_tags, tagged, grown, shrunk, painted, new_tag};

use crate::flag_list::Flags;
use crate::lined_text::MAX_LEN;
use crate::marks::is_listed;
use crate::parts::Tag;
use std::alloc::{AllocError, Global};
use std::marker::Model;
use tks_text::{Seq, Txt};

/// The tags of a text, fewer than 2^32, in the order in which they were made. They are changed where they stand.
#[derive(Drop)]
pub(crate) struct Tags {
    tags: Vec<Tag>,
}

impl Model for Tags {
    ghost use Rattle.std.specs.Prelude.{List};
    ghost use Rattle.tks_text.specs.Short.{IsShort};
    ghost use Rattle.tks_lines.specs.declared.parts.Tag.{Tag};

    ghost Value = { List Tag };

    ghost view = { λ t. t.tags.items };

    ghost invariant = { λ t. IsShort t.tags.items };
}

// How many tags stand before the one of a name; all, where there is none.
fn before_tag(name: &Txt, tags: &[Tag]) -> usize
    ensures value { result ≡ prefix_len (λ g. not (is_tag name.now g)) tags.now }
    ensures bound { result ≤ length tags.now }
{
    for (index, tag) in tags.iter().enumerate() {
        if tag.name.as_bytes() == name.as_bytes() {
            return index;
        }
    }
    tags.len()
}

/// Whether the characters on both sides of a place have a tag.
fn is_around(place: usize, tag: &Tag) -> bool
    ensures { result ≡ is_around place tag.now }
{
    place != 0 && tag.on.is_on(place - 1) && tag.on.is_on(place)
}

// Changes a tag where so many characters come in at a place, which have it or don't.
fn grow(tag: &mut Tag, place: usize, count: usize, value: bool) -> Result<(), AllocError>
    ensures ok { OnOk result (tag.new ≡ grown place count value tag.old) }
    ensures err { OnErr result (tag.new ≡ tag.old) }
{
    tag.on.splice(place, count, value)?;
    Ok(())
}

// Changes a tag where the characters between two places go out.
fn shrink(tag: &mut Tag, first: usize, last: usize)
    ensures { tag.new ≡ shrunk first last tag.old }
{
    tag.on.cut(first, last);
}

// Puts a tag on the characters between two places, or takes it from them.
fn paint(tag: &mut Tag, value: bool, first: usize, last: usize) -> Result<(), AllocError>
    ensures ok { OnOk result (tag.new ≡ record tag.old { on = painted value first last tag.old.on }) }
    ensures err { OnErr result (tag.new ≡ tag.old) }
{
    tag.on.paint(first, last, value)?;
    Ok(())
}

// An equal tag.
fn copy(tag: &Tag) -> Result<Tag, AllocError>
    ensures { IfOk result (λ g. g ≡ tag.now) }
{
    Ok(Tag {
        name: tag.name.try_clone()?,
        on: tag.on.try_clone()?,
    })
}

// Changes tags where so many characters come in at a place: they have those on both sides of it. Tells how many are changed:
// all, unless memory is refused.
fn grow_first_around(tags: &mut [Tag], place: usize, count: usize) -> usize
    ensures made { tags.new ≡ map (λ g. grown place count (is_around place g) g) (take result tags.old) ++ drop result tags.old }
    ensures bound { result ≤ length tags.old }
{
    let mut done = 0;
    for tag in tags.iter_mut() {
        let value = is_around(place, tag);
        match grow(tag, place, count, value) {
            Ok(()) => done += 1,
            Err(_) => return done,
        }
    }
    done
}

// The same, where they have those of some names.
fn grow_first_among(tags: &mut [Tag], place: usize, count: usize, names: &[Txt]) -> usize
    ensures made { tags.new ≡ map (λ g. grown place count (is_among names.now g) g) (take result tags.old) ++ drop result tags.old }
    ensures bound { result ≤ length tags.old }
{
    let mut done = 0;
    for tag in tags.iter_mut() {
        let value = is_listed(&tag.name, names);
        match grow(tag, place, count, value) {
            Ok(()) => done += 1,
            Err(_) => return done,
        }
    }
    done
}

// Changes each tag where the characters between two places go out.
fn shrink_each(tags: &mut [Tag], first: usize, last: usize)
    ensures { tags.new ≡ map (shrunk first last) tags.old }
{
    for tag in tags.iter_mut() {
        shrink(tag, first, last);
    }
}

// Lets characters that came in go out again, of the first so many tags.
fn shrink_first(tags: &mut [Tag], done: usize, first: usize, last: usize)
    requires { done ≤ length tags.old }
    ensures { tags.new ≡ map (shrunk first last) (take done tags.old) ++ drop done tags.old }
{
    shrink_each(&mut tags[..done], first, last);
}

// Changes each tag where so many characters come in at a place: they have those on both sides of it.
fn grow_each_around(tags: &mut [Tag], place: usize, count: usize) -> Result<(), AllocError>
    requires here { AllByRecursion (λ g. place ≤ length g.on) tags.old }
    requires small { place + count < 2 ^ 64 }
    ensures ok { OnOk result (tags.new ≡ map (λ g. grown place count (is_around place g) g) tags.old) }
    ensures err { OnErr result (tags.new ≡ tags.old) }
{
    let done = grow_first_around(tags, place, count);
    if done < tags.len() {
        shrink_first(tags, done, place, place + count);
        return Err(AllocError);
    }
    Ok(())
}

// The same, where they have those of some names.
fn grow_each_among(
    tags: &mut [Tag],
    place: usize,
    count: usize,
    names: &[Txt],
) -> Result<(), AllocError>
    requires here { AllByRecursion (λ g. place ≤ length g.on) tags.old }
    requires small { place + count < 2 ^ 64 }
    ensures ok { OnOk result (tags.new ≡ map (λ g. grown place count (is_among names.now g) g) tags.old) }
    ensures err { OnErr result (tags.new ≡ tags.old) }
{
    let done = grow_first_among(tags, place, count, names);
    if done < tags.len() {
        shrink_first(tags, done, place, place + count);
        return Err(AllocError);
    }
    Ok(())
}

// A tag of a name, put on the characters between two places of so many.
fn new_tag(
    alloc: Global,
    name: &Txt,
    len: usize,
    first: usize,
    last: usize,
) -> Result<Tag, AllocError>
    ensures { IfOk result (λ g. g ≡ record (new_tag name.now len) { on = painted true first last (new_tag name.now len).on }) }
{
    let mut on = Flags::none(alloc, len)?;
    on.paint(first, last, true)?;
    Ok(Tag {
        name: name.try_clone()?,
        on,
    })
}

// Adds a tag, unless there are too many.
fn push(tags: &mut Vec<Tag>, tag: Tag) -> Result<(), AllocError>
    ensures ok { OnOk result ((tags.new.items ≡ tags.old.items ++ tag ∷ []) × IsShort tags.new.items) }
    ensures err { OnErr result (tags.new.items ≡ tags.old.items) }
{
    if tags.len() >= MAX_LEN {
        return Err(AllocError);
    }
    tags.push(tag)?;
    Ok(())
}

// Adds a tag of a name where there is none.
fn add_tag(alloc: Global, tags: &mut Vec<Tag>, name: &Txt, len: usize) -> Result<(), AllocError>
    requires { IsShort tags.old.items }
    ensures ok { OnOk result ((tags.new.items ≡ with_tag name.now len tags.old.items) × IsShort tags.new.items) }
    ensures err { OnErr result (tags.new.items ≡ tags.old.items) }
{
    if before_tag(name, tags.as_slice()) < tags.len() {
        return Ok(());
    }
    let tag = new_tag(alloc, name, len, 0, 0)?;
    push(tags, tag)?;
    Ok(())
}

// Adds a tag of each of some names where there is none. Where memory is refused, those that were there stand first.
fn add_tags(alloc: Global, tags: &mut Vec<Tag>, names: &[Txt], len: usize) -> Result<(), AllocError>
    requires { IsShort tags.old.items }
    ensures ok { OnOk result ((tags.new.items ≡ with_tags names.now len tags.old.items) × IsShort tags.new.items) }
    ensures err { OnErr result (take (length tags.old.items) tags.new.items ≡ tags.old.items) }
{
    for name in names {
        add_tag(alloc, tags, name, len)?;
    }
    Ok(())
}

impl Tags {
    /// None.
    pub(crate) fn new(alloc: Global) -> Tags
        ensures { result ≡ [] }
    {
        Tags {
            tags: Vec::new(alloc),
        }
    }

    /// These tags.
    pub(crate) fn of(tags: Seq<Tag>) -> Tags
        ensures { result ≡ tags }
    {
        let _len = tags.len();
        Tags {
            tags: tags.into_items(),
        }
    }

    /// The tags, in order.
    pub(crate) fn as_slice(&self) -> &[Tag]
        ensures value { result.now ≡ self.now }
        ensures short { IsShort self.now }
    {
        self.tags.as_slice()
    }

    /// How many there are.
    pub(crate) fn len(&self) -> usize
        ensures { result ≡ length self.now }
    {
        self.tags.len()
    }

    /// Changes them where so many characters come in at a place: they have the tags on both sides of it.
    pub(crate) fn grow_around(&mut self, place: usize, count: usize) -> Result<(), AllocError>
        requires here { AllByRecursion (λ g. place ≤ length g.on) self.old }
        requires small { place + count < 2 ^ 64 }
        ensures ok { OnOk result (self.new ≡ map (λ g. grown place count (is_around place g) g) self.old) }
        ensures err { OnErr result (self.new ≡ self.old) }
    {
        grow_each_around(&mut self.tags, place, count)?;
        Ok(())
    }

    /// The same, where they have the tags of some names.
    pub(crate) fn grow_among(
        &mut self,
        place: usize,
        count: usize,
        names: &[Txt],
    ) -> Result<(), AllocError>
        requires here { AllByRecursion (λ g. place ≤ length g.on) self.old }
        requires small { place + count < 2 ^ 64 }
        ensures ok { OnOk result (self.new ≡ map (λ g. grown place count (is_among names.now g) g) self.old) }
        ensures err { OnErr result (self.new ≡ self.old) }
    {
        grow_each_among(&mut self.tags, place, count, names)?;
        Ok(())
    }

    /// Changes them where the characters between two places go out.
    pub(crate) fn shrink(&mut self, first: usize, last: usize)
        ensures { self.new ≡ map (shrunk first last) self.old }
    {
        shrink_each(&mut self.tags, first, last);
    }

    /// Adds one of each of some names, for a text of so many characters.
    pub(crate) fn add(&mut self, alloc: Global, names: &[Txt], len: usize) -> Result<(), AllocError>
        ensures ok { OnOk result (self.new ≡ with_tags names.now len self.old) }
        ensures err { OnErr result (self.new ≡ self.old) }
    {
        let before = self.tags.len();
        if let Err(error) = add_tags(alloc, &mut self.tags, names, len) {
            self.tags.truncate(before);
            return Err(error);
        }
        Ok(())
    }

    /// Lets go of all but the first so many.
    pub(crate) fn truncate(&mut self, len: usize)
        ensures { self.new ≡ take len self.old }
    {
        self.tags.truncate(len);
    }

    /// Puts the one of a name on the characters between two places; one of the name is made where there is none, for a text of
    /// so many characters.
    pub(crate) fn put_on(
        &mut self,
        alloc: Global,
        name: &Txt,
        first: usize,
        last: usize,
        len: usize,
    ) -> Result<(), AllocError>
        requires { Differ (map (λ g. g.name) self.old) }
        ensures ok { OnOk result (self.new ≡ map (tagged true name.now first last) (with_tag name.now len self.old)) }
        ensures err { OnErr result (self.new ≡ self.old) }
    {
        let index = before_tag(name, self.tags.as_slice());
        if index < self.tags.len() {
            paint(&mut self.tags[index], true, first, last)?;
            return Ok(());
        }
        let tag = new_tag(alloc, name, len, first, last)?;
        push(&mut self.tags, tag)?;
        Ok(())
    }

    /// Takes the one of a name from the characters between two places.
    pub(crate) fn take_off(
        &mut self,
        name: &Txt,
        first: usize,
        last: usize,
    ) -> Result<(), AllocError>
        requires { Differ (map (λ g. g.name) self.old) }
        ensures ok { OnOk result (self.new ≡ map (tagged false name.now first last) self.old) }
        ensures err { OnErr result (self.new ≡ self.old) }
    {
        let index = before_tag(name, self.tags.as_slice());
        if index < self.tags.len() {
            paint(&mut self.tags[index], false, first, last)?;
        }
        Ok(())
    }

    /// Those without the ones of some names.
    pub(crate) fn without(&self, alloc: Global, names: &[Txt]) -> Result<Tags, AllocError>
        ensures { IfOk result (λ all. all ≡ without_tags names.now self.now) }
    {
        let left = without_tags(alloc, self.tags.as_slice(), names)?;
        Ok(Tags::of(left))
    }

    /// Equal tags.
    pub(crate) fn try_clone(&self, alloc: Global) -> Result<Tags, AllocError>
        ensures { IfOk result (λ all. all ≡ self.now) }
    {
        let all = copied(alloc, self.tags.as_slice())?;
        Ok(Tags::of(all))
    }
}

// The tags without those of some names.
fn without_tags(alloc: Global, tags: &[Tag], names: &[Txt]) -> Result<Seq<Tag>, AllocError>
    ensures { IfOk result (λ all. all ≡ without_tags names.now tags.now) }
{
    let mut all = Seq::new(alloc);
    for tag in tags {
        if !is_listed(&tag.name, names) {
            all.push(copy(tag)?)?;
        }
    }
    Ok(all)
}

// Equal tags.
fn copied(alloc: Global, tags: &[Tag]) -> Result<Seq<Tag>, AllocError>
    ensures { IfOk result (λ all. all ≡ tags.now) }
{
    let mut all = Seq::new(alloc);
    for tag in tags {
        all.push(copy(tag)?)?;
    }
    Ok(all)
}
