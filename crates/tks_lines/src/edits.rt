//! Changes of a text widget's text, marks and tags.
ghost use Rattle.std.specs.Prelude.{◌≡◌, ◌≤◌, ◌<◌, ◌^◌, true, false, length, map, OnOk, OnErr};
ghost use Rattle.tks_lines.specs.Lines.{at_most_last, put_in, is_around, is_among, with_tags, inserted, inserted_with, deleted, with_mark, without_marks, turned_marks, with_tag, without_tags, tagged};

use crate::lines::TextWidget;
use std::alloc::AllocError;
use tks_text::Txt;

impl TextWidget {
    // A place, or that of the last newline for one behind it.
    pub(crate) fn at_most_last(&self, place: usize) -> usize
        ensures value { result ≡ at_most_last self.now place }
        ensures inside { result ≤ length self.now.text }
    {
        place.min(self.len())
    }

    // Puts characters in at a place that isn't behind the last newline, with the tags on both sides.
    fn put_around(&mut self, place: usize, more: &Txt) -> Result<(), AllocError>
        requires { place ≤ length self.old.text }
        ensures ok { OnOk result (self.new ≡ put_in place more.now (is_around place) self.old) }
        ensures err { OnErr result (self.new ≡ self.old) }
        ensures class { self.new.options.class ≡ self.old.options.class }
    {
        let _len = self.len();
        let count = more.as_bytes().len();
        self.tags.grow_around(place, count)?;
        if let Err(error) = self.text.insert(self.alloc, place, more) {
            self.tags.shrink(place, place + count);
            return Err(error);
        }
        self.marks.move_on(place, count);
        Ok(())
    }

    // The same, with the tags of some names.
    fn put_among(&mut self, place: usize, more: &Txt, names: &[Txt]) -> Result<(), AllocError>
        requires { place ≤ length self.old.text }
        ensures ok { OnOk result (self.new ≡ put_in place more.now (is_among names.now) self.old) }
        ensures err { OnErr result (self.new ≡ self.old) }
        ensures class { self.new.options.class ≡ self.old.options.class }
    {
        let _len = self.len();
        let count = more.as_bytes().len();
        self.tags.grow_among(place, count, names)?;
        if let Err(error) = self.text.insert(self.alloc, place, more) {
            self.tags.shrink(place, place + count);
            return Err(error);
        }
        self.marks.move_on(place, count);
        Ok(())
    }

    // Puts characters in at a place, with the tags on both sides.
    pub(crate) fn insert(&mut self, place: usize, more: &Txt) -> Result<(), AllocError>
        ensures ok { OnOk result (self.new ≡ inserted place more.now self.old) }
        ensures err { OnErr result (self.new ≡ self.old) }
        ensures class { self.new.options.class ≡ self.old.options.class }
    {
        if !self.options.is_editable() {
            return Ok(());
        }
        let place = self.at_most_last(place);
        self.put_around(place, more)?;
        Ok(())
    }

    // Adds a tag of each of some names where there is none.
    #[tactic(auto, using(crate::proofs::Lengths::with_tags_long, crate::proofs::Names::with_tags_differ))]
    fn add_tags(&mut self, names: &[Txt]) -> Result<(), AllocError>
        ensures ok { OnOk result (self.new ≡ record self.old { tags = with_tags names.now (length self.old.text) self.old.tags }) }
        ensures err { OnErr result (self.new ≡ self.old) }
        ensures class { self.new.options.class ≡ self.old.options.class }
    {
        let len = self.len();
        self.tags.add(self.alloc, names, len)?;
        Ok(())
    }

    // Puts characters in at a place, with the tags of some names.
    pub(crate) fn insert_with(
        &mut self,
        place: usize,
        more: &Txt,
        names: &[Txt],
    ) -> Result<(), AllocError>
        ensures ok { OnOk result (self.new ≡ inserted_with place more.now names.now self.old) }
        ensures err { OnErr result (self.new ≡ self.old) }
        ensures class { self.new.options.class ≡ self.old.options.class }
    {
        if !self.options.is_editable() {
            return Ok(());
        }
        let place = self.at_most_last(place);
        let before = self.tags.len();
        self.add_tags(names)?;
        if let Err(error) = self.put_among(place, more, names) {
            self.tags.truncate(before);
            return Err(error);
        }
        Ok(())
    }

    // Takes the characters between two places out.
    #[tactic(auto, using(crate::proofs::Inside::deleted_inside, crate::proofs::Lengths::shrunk_long, crate::proofs::Names::shrunk_differ, crate::proofs::Names::back_differ, crate::proofs::Names::back_first))]
    pub(crate) fn delete(&mut self, first: usize, last: usize) -> Result<(), AllocError>
        ensures ok { OnOk result (self.new ≡ deleted first last self.old) }
        ensures err { OnErr result (self.new ≡ self.old) }
        ensures class { self.new.options.class ≡ self.old.options.class }
    {
        if !self.options.is_editable() {
            return Ok(());
        }
        self.text.delete(self.alloc, first, last)?;
        self.tags.shrink(first, last);
        self.marks.move_back(first, last);
        Ok(())
    }

    // Puts a mark at a place.
    #[tactic(auto, using(crate::proofs::Inside::set_inside, crate::proofs::Names::set_differ, crate::proofs::Names::set_first))]
    pub(crate) fn set_mark(&mut self, name: &Txt, place: usize) -> Result<(), AllocError>
        ensures ok { OnOk result (self.new ≡ record self.old { marks = with_mark name.now (at_most_last self.old place) self.old.marks }) }
        ensures err { OnErr result (self.new ≡ self.old) }
        ensures class { self.new.options.class ≡ self.old.options.class }
    {
        let place = self.at_most_last(place);
        self.marks.set(name, place)?;
        Ok(())
    }

    // Takes the marks of some names away.
    #[tactic(auto, using(crate::proofs::Inside::unset_inside, crate::proofs::Names::unset_differ, crate::proofs::Names::unset_first))]
    pub(crate) fn unset_marks(&mut self, names: &[Txt]) -> Result<(), AllocError>
        ensures ok { OnOk result (self.new ≡ record self.old { marks = without_marks names.now self.old.marks }) }
        ensures err { OnErr result (self.new ≡ self.old) }
        ensures class { self.new.options.class ≡ self.old.options.class }
    {
        self.marks = self.marks.without(self.alloc, names)?;
        Ok(())
    }

    // Gives the mark of a name its gravity.
    #[tactic(auto, using(crate::proofs::Inside::turned_inside, crate::proofs::Names::turned_differ, crate::proofs::Names::turned_first))]
    pub(crate) fn turn_mark(&mut self, name: &Txt, left: bool)
        ensures value { self.new ≡ record self.old { marks = turned_marks name.now left self.old.marks } }
        ensures class { self.new.options.class ≡ self.old.options.class }
    {
        self.marks.turn(name, left);
    }

    // Puts a tag on the characters between two places; one of the name is made where there is none.
    #[tactic(auto, using(crate::proofs::Lengths::tagged_long, crate::proofs::Lengths::with_tag_long, crate::proofs::Names::tagged_differ, crate::proofs::Names::with_tag_differ))]
    pub(crate) fn put_tag_on(
        &mut self,
        name: &Txt,
        first: usize,
        last: usize,
    ) -> Result<(), AllocError>
        ensures ok { OnOk result (self.new ≡ record self.old { tags = map (tagged true name.now first last) (with_tag name.now (length self.old.text) self.old.tags) }) }
        ensures err { OnErr result (self.new ≡ self.old) }
        ensures class { self.new.options.class ≡ self.old.options.class }
    {
        let len = self.len();
        self.tags.put_on(self.alloc, name, first, last, len)?;
        Ok(())
    }

    // Takes a tag off the characters between two places.
    #[tactic(auto, using(crate::proofs::Lengths::tagged_long, crate::proofs::Names::tagged_differ))]
    pub(crate) fn take_tag_off(
        &mut self,
        name: &Txt,
        first: usize,
        last: usize,
    ) -> Result<(), AllocError>
        ensures ok { OnOk result (self.new ≡ record self.old { tags = map (tagged false name.now first last) self.old.tags }) }
        ensures err { OnErr result (self.new ≡ self.old) }
        ensures class { self.new.options.class ≡ self.old.options.class }
    {
        self.tags.take_off(name, first, last)?;
        Ok(())
    }

    // Deletes the tags of some names.
    #[tactic(auto, using(crate::proofs::Lengths::without_tags_long, crate::proofs::Names::without_tags_differ))]
    pub(crate) fn delete_tags(&mut self, names: &[Txt]) -> Result<(), AllocError>
        ensures ok { OnOk result (self.new ≡ record self.old { tags = without_tags names.now self.old.tags }) }
        ensures err { OnErr result (self.new ≡ self.old) }
        ensures class { self.new.options.class ≡ self.old.options.class }
    {
        self.tags = self.tags.without(self.alloc, names)?;
        Ok(())
    }
}
