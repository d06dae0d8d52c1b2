// What an address, and an index, of a space and a direction names.
#[derive(Clone, Copy, Debug, PartialEq, Eq)]
pub enum Place {
    // a register of the file, by its number
    Register(usize),
    // a register that a 3C0h write stores, and flips the toggle
    Attribute(usize),
    // a read-only number: SR6, PCI00
    Fixed(u16),
    // PCI02: a read-only number that goes by the chip
    DeviceId,
    // CR24
    ToggleState,
    // CR26
    AttributeIndex,
    // B0: a register that also shows the marks of the last pixel data access
    PaletteState,
    // 10Ch: a register of which some bits read 1 on the 5462
    VPortState,
    // 3C7h: read the DAC state, write the read address
    ReadAddress,
    // 3C8h: read the address, write the write address
    WriteAddress,
    // 3C9h
    PixelData,
    // 3?Ah: a read gives what the display is doing and sets the toggle to index
    ToggleReset,
    // an index that names no held register
    Unnamed,
    // the same at a data write of 3C0h, which still flips the toggle
    UnnamedAttribute,
    // 140h on the 5464: the line that the display is at
    CurrentLine,
    // what a record of kind 6 finds: lines pass
    Passing,
}
