//! Laws of the spellings.
ghost use Rattle.std.specs.Prelude.{◌≡◌, ℕ, List, Some};
ghost use Rattle.tks_text.specs.declared.class.Class.{Class};
ghost use Rattle.tks_opt.specs.Options.{Options};
ghost use Rattle.tks_spelling.specs.Spelling.{texts, Lawful};
ghost use Rattle.tks_codec_windows.specs.Bindtags.{tags};
ghost use Rattle.tks_codec_windows.specs.Contents.{contents};
ghost use Rattle.tks_codec_windows.specs.Options.{options};
ghost use Rattle.tks_codec_windows.specs.Packing.{packing};
ghost use Rattle.tks_codec_windows.specs.Entry.{entry};
ghost use Rattle.tks_codec_windows.specs.Listbox.{listbox};
ghost use Rattle.tks_codec_windows.specs.Lines.{lines};
ghost use Rattle.tks_codec_windows.specs.Places.{places_of, placed, PacksEach};
ghost use Rattle.tks_codec_windows.specs.declared.place.Place.{Place};
ghost use Rattle.tks_pack.specs.Packing.{Packed};
ghost use Rattle.tks_tree.specs.Windows.{Windows};
ghost use Rattle.tks_tree.specs.WellFormed.{WellFormed};

/// Each of these has one spelling, no spelling of one is a proper front of another of its kind, and what reading says
/// of bytes is what these spellings say.
pub fn spellings_are_lawful()
    ensures texts { Lawful texts }
    ensures tags { Lawful tags }
    ensures contents { Lawful contents }
    ensures options { (c : Class) → Lawful (options c) }
    ensures packing { Lawful packing }
    ensures entries { (o : Options) → Lawful (entry o) }
    ensures listboxes { (o : Options) → Lawful (listbox o) }
    ensures lines { (o : Options) → Lawful (lines o) }
{}

/// Windows, and what is packed in each, are made again of their places, and of no other
/// places.
pub fn places_are_exact()
    ensures again { (t : Windows) (packings : List Packed) → WellFormed t → PacksEach t packings → placed t.next (places_of t packings) ≡ Some (t, packings) }
    ensures only { (next : ℕ) (places : List Place) (t : Windows) (packings : List Packed) → placed next places ≡ Some (t, packings) → (places_of t packings ≡ places) × (t.next ≡ next) }
{}
