ghost use Rattle.std.specs.Prelude.{◌≡◌};
ghost use Rattle.file.specs.Palette.{component as componentOf, addressed as addressedAt, after_write, after_read, stores as storesNow, mixed as mixedWith, dac_state, marks_from};

// An entry of the palette or of the bank: three whole bytes.
#[derive(Clone, Copy, Debug, Default, PartialEq, Eq)]
pub struct Colour {
    pub red: u8,
    pub green: u8,
    pub blue: u8,
}

// The palette pointer. `next` is the next colour: 0 red, 1 green, 2 blue; `red` and `green` are the held bytes.
#[derive(Clone, Copy, Debug, PartialEq, Eq)]
pub struct Pointer {
    pub address: u8,
    pub reading: bool,
    pub next: u8,
    pub red: u8,
    pub green: u8,
}

impl Colour {
    // The component of a colour number: 0 red, 1 green, else blue.
    pub fn component(self, number: u8) -> u8
        ensures { result ≡ componentOf self number }
    {
        match number {
            0 => self.red,
            1 => self.green,
            _ => self.blue,
        }
    }
}

impl Pointer {
    // After a write of 3C7h or 3C8h: the address and mode given, red next, nothing held.
    pub fn addressed(reading: bool, address: u8) -> Pointer
        ensures { result ≡ addressedAt reading address }
    {
        Pointer {
            address,
            reading,
            next: 0,
            red: 0,
            green: 0,
        }
    }

    // After a pixel data write: the byte is held at red and green; after blue the address rises.
    pub fn after_write(self, byte: u8) -> Pointer
        ensures { result ≡ after_write self byte }
    {
        match self.next {
            0 => Pointer {
                next: 1,
                red: byte,
                ..self
            },
            1 => Pointer {
                next: 2,
                green: byte,
                ..self
            },
            _ => Pointer::addressed(self.reading, self.address.wrapping_add(1)),
        }
    }

    // After a pixel data read: what is held stays until blue.
    pub fn after_read(self) -> Pointer
        ensures { result ≡ after_read self }
    {
        match self.next {
            0 => Pointer { next: 1, ..self },
            1 => Pointer { next: 2, ..self },
            _ => Pointer::addressed(self.reading, self.address.wrapping_add(1)),
        }
    }

    // A pixel data write stores an entry: blue is next.
    pub fn stores(self) -> bool
        ensures { result ≡ storesNow self }
    {
        2 <= self.next
    }

    // The colour that it then stores.
    pub fn mixed(self, byte: u8) -> Colour
        ensures { result ≡ mixedWith self byte }
    {
        Colour {
            red: self.red,
            green: self.green,
            blue: byte,
        }
    }

    // What 3C7h reads.
    pub fn dac_state(self) -> u16
        ensures { result ≡ dac_state self }
    {
        if self.reading { 3 } else { 0 }
    }

    // The marks of a pixel data access from here, as B0[2:0] reads them: 4 for a read, and the colour.
    pub fn marks(self, reading: bool) -> u8
        ensures { result ≡ marks_from reading self }
    {
        let colour = self.next.min(2);
        if reading { 4 + colour } else { colour }
    }
}
