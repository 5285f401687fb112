//! The classes of windows.
ghost use Rattle.std.specs.Prelude.{◌≡◌};

/// The class of a window.
#[derive(Clone, Copy, Debug)]
pub enum Class {
    /// That of `.` alone.
    Root,
    Frame,
    Label,
    Button,
    Checkbutton,
    Entry,
    Listbox,
    Text,
}

impl Class {
    ghost use Rattle.tks_text.specs.Class.{class_name};

    /// The class's name, as a binding tag has it.
    pub fn name(self) -> &'static [u8]
        ensures { result.now ≡ class_name self }
    {
        match self {
            Class::Root => b"Tk",
            Class::Frame => b"Frame",
            Class::Label => b"Label",
            Class::Button => b"Button",
            Class::Checkbutton => b"Checkbutton",
            Class::Entry => b"Entry",
            Class::Listbox => b"Listbox",
            Class::Text => b"Text",
        }
    }
}
