// The image of a file: 'SGCL', the version, whether a set is kept, two zeros; registers, rest and set.
ghost use Rattle.std.specs.Prelude.{◌≡◌, cond, ◌≤◌, length};
ghost use Rattle.std.proofs.lemmas.List.Edits.{sets};
ghost use Rattle.image.specs.Image.{image_count, heading as headingOf, image_of, kept_set, save_answer, saved_in, headed, registers_in, rest_in, set_kept, set_part, loaded_from};

use crate::bytes::{flag_byte, is_set, put_bytes, put_words, words_in};
use crate::parts::REST;
use crate::sets::SET;
use crate::soundness::is_file;
use file::{Answer, REGISTERS};

pub const IMAGE: usize = 1433;

// What a load hands back: the parts of a file.
#[derive(Clone, Copy, Debug, PartialEq, Eq)]
pub struct Loaded {
    pub registers: [u16; REGISTERS],
    pub rest: [u8; REST],
    pub set: [u8; SET],
}

fn heading(kept: bool) -> [u8; 8]
    ensures { result ≡ headingOf kept }
{
    [0x53, 0x47, 0x43, 0x4C, 1, flag_byte(kept), 0, 0]
}

// The set, or none.
fn kept_set(kept: bool, set: [u8; SET]) -> [u8; SET]
    ensures { result ≡ kept_set kept set }
{
    if kept { set } else { [0; SET] }
}

// The image into a buffer that has room for it.
fn put_image(
    kept: bool,
    registers: [u16; REGISTERS],
    rest: [u8; REST],
    set: [u8; SET],
    buffer: &mut [u8],
)
    requires { image_count ≤ length buffer.old }
    ensures { buffer.new ≡ sets buffer.old 0 (image_of kept registers rest (kept_set kept set)) }
{
    put_bytes(&heading(kept), buffer, 0);
    put_words(&registers, buffer, 8);
    put_bytes(&rest, buffer, 224);
    put_bytes(&kept_set(kept, set), buffer, 1050);
}

// Saves a sound file, and its set where it is kept: 12, 11, or 0 with the image in the buffer's first bytes.
pub fn save(
    kept: bool,
    registers: [u16; REGISTERS],
    rest: [u8; REST],
    set: [u8; SET],
    buffer: &mut [u8],
) -> Answer
    ensures value { result ≡ save_answer registers rest buffer.old }
    ensures buffer_after { buffer.new ≡ saved_in kept registers rest set buffer.old }
{
    if !is_file(registers, rest) {
        return Answer::NotSound;
    }
    if buffer.len() < IMAGE {
        return Answer::ShortBuffer;
    }
    put_image(kept, registers, rest, set, buffer);
    Answer::Done(0)
}

// Mark, version, and the bytes behind.
#[tactic(auto, unfolding(crate::specs::Image::headed))]
fn is_headed(image: &[u8]) -> bool
    requires { length image.now ≡ image_count }
    ensures { result ≡ headed image.now }
{
    image[0] == 0x53
        && image[1] == 0x47
        && image[2] == 0x43
        && image[3] == 0x4C
        && image[4] == 1
        && image[5] <= 1
        && image[6] == 0
        && image[7] == 0
}

// The parts of an image.
fn registers_in(image: &[u8]) -> [u16; REGISTERS]
    requires { length image.now ≡ image_count }
    ensures { result ≡ registers_in image.now }
{
    let mut registers = [0; REGISTERS];
    words_in(&image[8..224], &mut registers);
    registers
}

fn rest_in(image: &[u8]) -> [u8; REST]
    requires { length image.now ≡ image_count }
    ensures { result ≡ rest_in image.now }
{
    let mut rest = [0; REST];
    rest.copy_from_slice(&image[224..1050]);
    rest
}

// The set that an image keeps, or the one that was there.
fn set_after(image: &[u8], set: [u8; SET]) -> [u8; SET]
    requires { length image.now ≡ image_count }
    ensures { result ≡ cond (set_kept image.now) (set_part image.now) set }
{
    let mut after = set;
    if is_set(image[5]) {
        after.copy_from_slice(&image[1050..1433]);
    }
    after
}

// Loads an image of a sound file; of any other 12. A set that the image doesn't keep is the one that was there.
pub fn load(image: &[u8], set: [u8; SET]) -> Result<Loaded, Answer>
    ensures { result ≡ loaded_from image.now set }
{
    if image.len() != IMAGE {
        return Err(Answer::NotSound);
    }
    if !is_headed(image) {
        return Err(Answer::NotSound);
    }
    let registers = registers_in(image);
    let rest = rest_in(image);
    let sound = is_file(registers, rest);
    if !sound {
        return Err(Answer::NotSound);
    }
    Ok(Loaded {
        registers,
        rest,
        set: set_after(image, set),
    })
}
