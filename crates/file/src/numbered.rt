// The numbers of the registers that the code names, 01's names.
ghost use Rattle.std.specs.Prelude.{◌≡◌};
ghost use Rattle.file.specs.Named.{numbers_in_code};

pub const MISC: usize = 0;

pub const SRX: usize = 1;

pub const CRX: usize = 2;

pub const GRX: usize = 3;

pub const ARX: usize = 4;

pub const PCI04: usize = 6;

pub const CR0: usize = 25;

pub const CR6: usize = 31;

pub const CR7: usize = 32;

pub const CR10: usize = 41;

pub const CR11: usize = 42;

pub const CR12: usize = 43;

pub const CR1A: usize = 51;

pub const CR1B: usize = 52;

pub const CR1E: usize = 54;

pub const B0: usize = 85;

pub const CC: usize = 89;

pub const CE: usize = 90;

pub const D0: usize = 91;

pub const D2: usize = 92;

pub const D4: usize = 93;

pub const D5: usize = 94;

pub const E0: usize = 95;

pub const E2: usize = 96;

pub const E4: usize = 97;

pub const E6: usize = 98;

pub const E8: usize = 99;

// The V-Port's capture registers, 108h to 10Eh. 10Ch is Capture Y Start on the 5464 and V-Port Control on the 5462.
pub const CAPTURE_X_START: usize = 104;

pub const CAPTURE_X_STOP: usize = 105;

pub const CAPTURE_Y_START: usize = 106;

pub const CAPTURE_Y_STOP: usize = 107;

// All of them in the order above: each is the number that its name has in 01's table.
pub fn named_numbers() -> [usize; 31]
    ensures { result ≡ numbers_in_code }
{
    [
        MISC,
        SRX,
        CRX,
        GRX,
        ARX,
        PCI04,
        CR0,
        CR6,
        CR7,
        CR10,
        CR11,
        CR12,
        CR1A,
        CR1B,
        CR1E,
        B0,
        CC,
        CE,
        D0,
        D2,
        D4,
        D5,
        E0,
        E2,
        E4,
        E6,
        E8,
        CAPTURE_X_START,
        CAPTURE_X_STOP,
        CAPTURE_Y_START,
        CAPTURE_Y_STOP,
    ]
}
