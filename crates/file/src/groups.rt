// 02, 5/13: the bits that each register stores, by group and in the manual's page order; the page behind each is the one that it begins on. Beside it stand `groups` (specs/Groups.antt) and
// section 5 of docs/MANUAL.md. A register's number is its place in `File::STORED`.

// 002, chapter 3, 'VGA core registers': general and palette registers. Sections 3.1 to 3.9, pages 3-5 to 3-14.
pub mod core_general {
    pub const MISC: u16 = 0xEF; // 3-5

    pub const PIXEL_MASK: u16 = 0xFF; // 3-10
}

// 002, chapter 3, 'VGA core registers': the sequencer. Sections 3.10 to 3.15, pages 3-15 to 3-21.
pub mod core_sequencer {
    pub const SRX: u16 = 0x1F; // 3-15

    pub const SR0: u16 = 0x03; // 3-16

    pub const SR1: u16 = 0x3D; // 3-17

    pub const SR2: u16 = 0x0F; // 3-18

    pub const SR3: u16 = 0x3F; // 3-19

    pub const SR4: u16 = 0x0E; // 3-21
}

// 002, chapter 3, 'VGA core registers': the CRTC. Sections 3.16 to 3.44, pages 3-22 to 3-53.
pub mod core_crtc {
    pub const CRX: u16 = 0x3F; // 3-22

    pub const CR0: u16 = 0xFF; // 3-25

    pub const CR1: u16 = 0xFF; // 3-26

    pub const CR2: u16 = 0xFF; // 3-27

    pub const CR3: u16 = 0xFF; // 3-28

    pub const CR4: u16 = 0xFF; // 3-29

    pub const CR5: u16 = 0xFF; // 3-30

    pub const CR6: u16 = 0xFF; // 3-31

    pub const CR7: u16 = 0xFF; // 3-32

    pub const CR8: u16 = 0x7F; // 3-33

    pub const CR9: u16 = 0xFF; // 3-34

    pub const CRA: u16 = 0x3F; // 3-35

    pub const CRB: u16 = 0x7F; // 3-36

    pub const CRC: u16 = 0xFF; // 3-37

    pub const CRD: u16 = 0xFF; // 3-38

    pub const CRE: u16 = 0xFF; // 3-39

    pub const CRF: u16 = 0xFF; // 3-40

    pub const CR10: u16 = 0xFF; // 3-41

    pub const CR11: u16 = 0xFF; // 3-42

    pub const CR12: u16 = 0xFF; // 3-43

    pub const CR13: u16 = 0xFF; // 3-44

    pub const CR14: u16 = 0x7F; // 3-45

    pub const CR15: u16 = 0xFF; // 3-46

    pub const CR16: u16 = 0xFF; // 3-47

    pub const CR17: u16 = 0xEF; // 3-48

    pub const CR18: u16 = 0xFF; // 3-50
}

// 002, chapter 3, 'VGA core registers': the graphics controller. Sections 3.45 to 3.54, pages 3-54 to 3-64.
pub mod core_graphics {
    pub const GRX: u16 = 0x3F; // 3-54

    pub const GR0: u16 = 0x0F; // 3-55

    pub const GR1: u16 = 0x0F; // 3-56

    pub const GR2: u16 = 0x0F; // 3-57

    pub const GR3: u16 = 0x1F; // 3-58

    pub const GR4: u16 = 0x03; // 3-59

    pub const GR5: u16 = 0x7B; // 3-60

    pub const GR6: u16 = 0x0F; // 3-62

    pub const GR7: u16 = 0x0F; // 3-63

    pub const GR8: u16 = 0xFF; // 3-64
}

// 002, chapter 3, 'VGA core registers': the attribute controller. Sections 3.55 to 3.61, pages 3-65 to 3-72.
pub mod core_attribute {
    pub const ARX: u16 = 0x3F; // 3-65

    pub const AR0: u16 = 0x3F; // 3-66

    pub const AR1: u16 = 0x3F; // 3-66

    pub const AR2: u16 = 0x3F; // 3-66

    pub const AR3: u16 = 0x3F; // 3-66

    pub const AR4: u16 = 0x3F; // 3-66

    pub const AR5: u16 = 0x3F; // 3-66

    pub const AR6: u16 = 0x3F; // 3-66

    pub const AR7: u16 = 0x3F; // 3-66

    pub const AR8: u16 = 0x3F; // 3-66

    pub const AR9: u16 = 0x3F; // 3-66

    pub const ARA: u16 = 0x3F; // 3-66

    pub const ARB: u16 = 0x3F; // 3-66

    pub const ARC: u16 = 0x3F; // 3-66

    pub const ARD: u16 = 0x3F; // 3-66

    pub const ARE: u16 = 0x3F; // 3-66

    pub const ARF: u16 = 0x3F; // 3-66

    pub const AR10: u16 = 0xEF; // 3-67

    pub const AR11: u16 = 0xFF; // 3-69

    pub const AR12: u16 = 0x3F; // 3-70

    pub const AR13: u16 = 0x0F; // 3-71

    pub const AR14: u16 = 0x0F; // 3-72
}

// 000, chapter 4, 'Extended I/O registers': PCI. Sections 4.1 to 4.17, pages 4-4 to 4-23.
pub mod extended_pci {
    pub const PCI04: u16 = 0x0027; // 4-6
}

// 000, chapter 4, 'Extended I/O registers': the sequencer. Sections 4.18 to 4.24, pages 4-24 to 4-31.
pub mod extended_sequencer {
    pub const SR7: u16 = 0x01; // 4-25

    pub const SR9: u16 = 0xFF; // 4-26

    pub const SRA: u16 = 0xFF; // 4-26

    pub const SR14: u16 = 0xFF; // 4-26

    pub const SR15: u16 = 0xFF; // 4-26

    pub const SR0B: u16 = 0xFF; // 4-27

    pub const SR0C: u16 = 0xFF; // 4-27

    pub const SR0D: u16 = 0xFF; // 4-27

    pub const SR0E: u16 = 0xFF; // 4-27

    pub const SR1B: u16 = 0x7F; // 4-31

    pub const SR1C: u16 = 0x7F; // 4-31

    pub const SR1D: u16 = 0x7F; // 4-31

    pub const SR1E: u16 = 0x7F; // 4-31
}

// 000, chapter 4, 'Extended I/O registers': the CRTC. Sections 4.28 to 4.32, pages 4-35 to 4-40.
pub mod extended_crtc {
    pub const CR19: u16 = 0xFF; // 4-35

    pub const CR1A: u16 = 0xFF; // 4-36

    pub const CR1B: u16 = 0xFF; // 4-37

    pub const CR1D: u16 = 0x18; // 4-39

    pub const CR1E: u16 = 0xFF; // 4-40
}

// 003, chapter 5, 'Video pipeline registers'. Sections 5.1 to 5.24, pages 5-3 to 5-30.
pub mod video_pipeline {
    pub const B0: u16 = 0x88; // 5-3

    pub const B8: u16 = 0xFF; // 5-6

    pub const BC: u16 = 0xFF; // 5-7

    pub const C0: u16 = 0x3F3F; // 5-8

    pub const CC: u16 = 0x0FFF; // 5-13

    pub const CE: u16 = 0x0FFF; // 5-14

    pub const D0: u16 = 0x0FFF; // 5-15

    pub const D2: u16 = 0x0FFF; // 5-16

    pub const D4: u16 = 0xFF; // 5-17

    pub const D5: u16 = 0x3F; // 5-18

    pub const E0: u16 = 0x0FFF; // 5-21

    pub const E2: u16 = 0x0FFF; // 5-22

    pub const E4: u16 = 0x7F7F; // 5-23

    pub const E6: u16 = 0x1101; // 5-24

    pub const E8: u16 = 0x7FFC; // 5-25
}

// 001, chapter 6, 'Enhanced V-Port registers', 100h to 10Eh. Sections 6.1 to 6.9, pages 6-3 to 6-13. 10Ch is Capture Y Start on the 5464 and V-Port Control on the 5462.
pub mod v_port {
    pub const BUFFER_0_X: u16 = 0x1F00; // 6-3

    pub const BUFFER_1_X: u16 = 0x1F00; // 6-4

    pub const BUFFER_0_Y: u16 = 0x3FFF; // 6-5

    pub const BUFFER_1_Y: u16 = 0x3FFF; // 6-6

    pub const CAPTURE_X_START: u16 = 0x03FF; // 6-7

    pub const CAPTURE_X_STOP: u16 = 0x03FF; // 6-8

    pub const CAPTURE_Y_START: u16 = 0x01FF; // 6-9

    pub const CAPTURE_Y_STOP: u16 = 0x01FF; // 6-10

    pub const V_PORT_CONTROL: u16 = 0xF3DF; // 6-11
}
