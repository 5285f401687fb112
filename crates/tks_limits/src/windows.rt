//! Windows, and what is kept of them.
ghost use Rattle.std.specs.Prelude.{◌≡◌, option_map};
ghost use Rattle.std.specs.List.{list_all};
ghost use Rattle.tks_limits.specs.Within as kinds;
ghost use Rattle.tks_opt.specs.Options.{values_in_order};

use crate::texts::{fits, may_hold, texts_fit};
use tks_lines::{Mark, Tag, TextWidget};
use tks_listbox::{Item, ListWidget};
use tks_opt::Options;
use tks_share::{Items, SharedList};
use tks_state::{Kept, Widget};
use tks_text::{Limits, Seq, Txt};
use tks_tree::Tree;

/// Whether the windows are no more than may be, and their paths fit.
pub fn paths_fit(tree: &Tree, limits: &Limits) -> bool
    ensures { result ≡ kinds.paths_fit limits.now tree.now.windows }
{
    may_hold(tree.len(), limits) && each_path_fits(tree, limits)
}

// Whether each path fits.
fn each_path_fits(tree: &Tree, limits: &Limits) -> bool
    ensures { result ≡ list_all (λ w. kinds.fits limits.now w.path) tree.now.windows }
{
    for index in 0..tree.len() {
        let Some(window) = tree.nth(index) else {
            unreachable!()
        };
        if !fits(window.path.as_bytes(), limits) {
            return false;
        }
    }
    true
}

// Whether the values of options fit.
fn values_fit(options: &Options, limits: &Limits) -> bool
    ensures { result ≡ kinds.texts_fit limits.now (values_in_order options.now) }
{
    for index in 0..options.len() {
        let Some(value) = options.value_at(index) else {
            unreachable!()
        };
        if !fits(value.as_bytes(), limits) {
            return false;
        }
    }
    true
}

// Whether a window's own tags fit.
fn tags_fit(tags: Option<&Seq<Txt>>, limits: &Limits) -> bool
    ensures { result ≡ kinds.tags_fit limits.now (option_map (λ t. t.now) tags.entry) }
{
    match tags {
        None => true,
        Some(tags) => may_hold(tags.len(), limits) && texts_fit(tags.as_slice(), limits),
    }
}

// Whether the texts of items fit.
fn items_fit(items: Items<'_, Item>, limits: &Limits) -> bool
    ensures { result ≡ list_all (λ i. kinds.fits limits.now i.text) items.entry }
{
    for item in items {
        if !fits(item.text.as_bytes(), limits) {
            return false;
        }
    }
    true
}

// Whether what a listbox holds fits.
fn listbox_fits(listbox: &ListWidget, limits: &Limits) -> bool
    ensures { result ≡ kinds.listbox_fits limits.now listbox.now }
{
    let items = listbox.items();
    may_hold(items.len(), limits) && items_fit(items.iter(), limits)
}

// Whether the names of tags fit.
fn names_fit(tags: &[Tag], limits: &Limits) -> bool
    ensures { result ≡ list_all (λ g. kinds.fits limits.now g.name) tags.now }
{
    for tag in tags {
        if !fits(tag.name.as_bytes(), limits) {
            return false;
        }
    }
    true
}

// Whether the names of marks fit.
fn marks_fit(marks: &[Mark], limits: &Limits) -> bool
    ensures { result ≡ list_all (λ m. kinds.fits limits.now m.name) marks.now }
{
    for mark in marks {
        if !fits(mark.name.as_bytes(), limits) {
            return false;
        }
    }
    true
}

// Whether what a text widget holds fits.
fn lines_fit(widget: &TextWidget, limits: &Limits) -> bool
    ensures { result ≡ kinds.lines_fit limits.now widget.now }
{
    let tags = widget.tags();
    let marks = widget.marks();
    widget.len() <= limits.text as usize
        && may_hold(tags.len(), limits)
        && names_fit(tags, limits)
        && may_hold(marks.len(), limits)
        && marks_fit(marks, limits)
}

// Whether what a widget holds besides its options fits.
fn content_fits(widget: &Widget, limits: &Limits) -> bool
    ensures { result ≡ kinds.content_fits limits.now widget.now }
{
    match widget {
        Widget::Frame(_) | Widget::Caption(_) => true,
        Widget::Entry(entry) => fits(entry.text().as_bytes(), limits),
        Widget::Listbox(listbox) => listbox_fits(listbox, limits),
        Widget::Text(text) => lines_fit(text, limits),
    }
}

/// Whether the values of a widget's options, and what it holds, fit.
pub fn widget_fits(widget: &Widget, limits: &Limits) -> bool
    ensures { result ≡ kinds.widget_fits limits.now widget.now }
{
    values_fit(widget.options(), limits) && content_fits(widget, limits)
}

// Whether what is kept of a window fits.
fn kept_fits(kept: &Kept, limits: &Limits) -> bool
    ensures { result ≡ kinds.kept_fits limits.now kept.now }
{
    widget_fits(kept.widget.get(), limits) && tags_fit(kept.tags(), limits)
}

/// Whether what is kept of each window fits.
pub fn all_kept_fit(kept: &SharedList<Kept>, limits: &Limits) -> bool
    ensures { result ≡ list_all (kinds.kept_fits limits.now) kept.now }
{
    for one in kept.iter() {
        if !kept_fits(one, limits) {
            return false;
        }
    }
    true
}
