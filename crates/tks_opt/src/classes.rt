//! The numbers of classes, as bytes tell them.
ghost use Rattle.std.specs.Prelude.{◌≡◌};
ghost use Rattle.tks_opt.specs.Numbers.{class_number, class_numbered};

use tks_text::Class;

/// The number by which bytes tell a class: 0 is that of `.`.
pub fn class_number(class: Class) -> u8
    ensures { result ≡ class_number class }
{
    match class {
        Class::Root => 0,
        Class::Frame => 1,
        Class::Label => 2,
        Class::Button => 3,
        Class::Checkbutton => 4,
        Class::Entry => 5,
        Class::Listbox => 6,
        Class::Text => 7,
    }
}

/// The class of a number.
pub fn class_numbered(number: u8) -> Option<Class>
    ensures { result ≡ class_numbered number }
{
    match number {
        0 => Some(Class::Root),
        1 => Some(Class::Frame),
        2 => Some(Class::Label),
        3 => Some(Class::Button),
        4 => Some(Class::Checkbutton),
        5 => Some(Class::Entry),
        6 => Some(Class::Listbox),
        7 => Some(Class::Text),
        _ => None,
    }
}
