// A host looks into a file without an access. A file that is not sound is refused with 12, a register or an entry that there is not with 1.
ghost use Rattle.std.specs.Prelude.{◌≡◌, Ok, [], get_or, map, ok_or, option_map, position, slice_get};
ghost use Rattle.file.specs.declared.answer.Answer.TheVariants.{NoRegister};
ghost use Rattle.file.specs.Readers.{name_table, same, if_sound, read_register, read_named, read_number, read_palette, read_bank, read_pointer, read_marks, read_toggle};

use crate::answer::Answer;
use crate::palette::{Colour, Pointer};
use crate::registers::{File, REGISTERS};
use crate::sound::is_sound;

// The last pixel data access: whether it was a read, and the colour that was next before it.
#[derive(Clone, Copy, Debug, PartialEq, Eq)]
pub struct Marks {
    pub reading: bool,
    pub colour: u8,
}

// The registers' names, by their numbers.
static NAMES: [&[u8]; REGISTERS] = [
    b"MISC",
    b"SRX",
    b"CRX",
    b"GRX",
    b"ARX",
    b"pixel mask",
    b"PCI04",
    b"SR0",
    b"SR1",
    b"SR2",
    b"SR3",
    b"SR4",
    b"SR7",
    b"SR9",
    b"SRA",
    b"SR0B",
    b"SR0C",
    b"SR0D",
    b"SR0E",
    b"SR14",
    b"SR15",
    b"SR1B",
    b"SR1C",
    b"SR1D",
    b"SR1E",
    b"CR0",
    b"CR1",
    b"CR2",
    b"CR3",
    b"CR4",
    b"CR5",
    b"CR6",
    b"CR7",
    b"CR8",
    b"CR9",
    b"CRA",
    b"CRB",
    b"CRC",
    b"CRD",
    b"CRE",
    b"CRF",
    b"CR10",
    b"CR11",
    b"CR12",
    b"CR13",
    b"CR14",
    b"CR15",
    b"CR16",
    b"CR17",
    b"CR18",
    b"CR19",
    b"CR1A",
    b"CR1B",
    b"CR1D",
    b"CR1E",
    b"GR0",
    b"GR1",
    b"GR2",
    b"GR3",
    b"GR4",
    b"GR5",
    b"GR6",
    b"GR7",
    b"GR8",
    b"AR0",
    b"AR1",
    b"AR2",
    b"AR3",
    b"AR4",
    b"AR5",
    b"AR6",
    b"AR7",
    b"AR8",
    b"AR9",
    b"ARA",
    b"ARB",
    b"ARC",
    b"ARD",
    b"ARE",
    b"ARF",
    b"AR10",
    b"AR11",
    b"AR12",
    b"AR13",
    b"AR14",
    b"B0",
    b"B8",
    b"BC",
    b"C0",
    b"CC",
    b"CE",
    b"D0",
    b"D2",
    b"D4",
    b"D5",
    b"E0",
    b"E2",
    b"E4",
    b"E6",
    b"E8",
    b"100",
    b"102",
    b"104",
    b"106",
    b"108",
    b"10A",
    b"10C",
    b"10E",
];

// What stands at a place of a list.
fn told<T: Copy>(items: &[T], place: usize) -> Result<T, Answer>
    ensures { result ≡ ok_or (slice_get items.now place) NoRegister }
{
    items.get(place).copied().ok_or(Answer::NoRegister)
}

// The text at a place.
fn text_at(texts: &[&'static [u8]], place: usize) -> Option<&'static [u8]>
    ensures { option_map (λ text. text.now) result ≡ slice_get (map (λ text. text.now) texts.now) place }
{
    told(texts, place).ok()
}

// The place of a name among names.
#[tactic(auto, unfolding(crate::specs::Readers::same))]
fn place_of(names: &[&[u8]], name: &[u8]) -> Option<usize>
    ensures { result ≡ position (λ own. same own.now name.now) names.now }
{
    names.iter().position(|own| *own == name)
}

impl File {
    // Whether the file may be looked into.
    fn looked_into(self) -> Result<(), Answer>
        ensures { result ≡ if_sound self (Ok tt) }
    {
        if is_sound(self) {
            Ok(())
        } else {
            Err(Answer::NotSound)
        }
    }

    // What a register holds, by its number in the table of stored bits.
    pub fn register(self, number: usize) -> Result<u16, Answer>
        ensures { result ≡ read_register self number }
    {
        self.looked_into()?;
        told(&self.registers, number)
    }

    // What a register holds, by its name in the table of stored bits.
    pub fn register_named(self, name: &[u8]) -> Result<u16, Answer>
        ensures { result ≡ read_named self name.now }
    {
        self.looked_into()?;
        let number = File::number_named(name)?;
        told(&self.registers, number)
    }

    // A register's number in the table of stored bits, by its name. It asks no file, so it never refuses with 12.
    pub fn number_named(name: &[u8]) -> Result<usize, Answer>
        ensures { result ≡ read_number name.now }
    {
        place_of(&NAMES, name).ok_or(Answer::NoRegister)
    }

    // A register's name in the table of stored bits, by its number.
    pub fn name(number: usize) -> Option<&'static [u8]>
        ensures { option_map (λ own. own.now) result ≡ slice_get name_table number }
    {
        text_at(&NAMES, number)
    }

    // A byte of a register's name in the table of stored bits, by its number; 0 behind the name, and where no register has the number.
    pub fn name_byte(number: usize, place: usize) -> u8
        ensures { result ≡ get_or (get_or name_table number []) place 0 }
    {
        match File::name(number) {
            Some(name) => name.get(place).copied().unwrap_or(0),
            None => 0,
        }
    }

    // An entry of the palette.
    pub fn palette_entry(self, entry: usize) -> Result<Colour, Answer>
        ensures { result ≡ read_palette self entry }
    {
        self.looked_into()?;
        told(&self.palette, entry)
    }

    // An entry of the bank.
    pub fn bank_entry(self, entry: usize) -> Result<Colour, Answer>
        ensures { result ≡ read_bank self entry }
    {
        self.looked_into()?;
        told(&self.bank, entry)
    }

    // The palette pointer.
    pub fn pointer_now(self) -> Result<Pointer, Answer>
        ensures { result ≡ read_pointer self }
    {
        self.looked_into()?;
        Ok(self.state.pointer)
    }

    // The marks of the last pixel data access.
    pub fn marks_now(self) -> Result<Marks, Answer>
        ensures { result ≡ read_marks self }
    {
        self.looked_into()?;
        let marks = self.state.marks;
        Ok(Marks {
            reading: marks / 4 == 1,
            colour: marks % 4,
        })
    }

    // The toggle: whether the next 3C0h write is data.
    pub fn toggle_now(self) -> Result<bool, Answer>
        ensures { result ≡ read_toggle self }
    {
        self.looked_into()?;
        Ok(self.state.toggle)
    }
}
