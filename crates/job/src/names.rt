// Each function code in words.

const NAMES: [(u8, &str); 38] = [
    (0x09, "exit"),
    (0x12, "load byte"),
    (0x13, "store byte"),
    (0x14, "bit compress"),
    (0x15, "bit merge"),
    (0x16, "bit mask"),
    (0x2C, "exclusive or"),
    (0x2D, "and"),
    (0x2E, "inclusive or"),
    (0x63, "add low 48"),
    (0x67, "subtract low 48"),
    (0x70, "truncate"),
    (0x71, "floor"),
    (0x72, "ceiling"),
    (0x76, "contract"),
    (0x77, "rounded contract"),
    (0x78, "transmit"),
    (0x7A, "exponent"),
    (0x7B, "pack"),
    (0x7C, "left 16"),
    (0x7E, "load word"),
    (0x7F, "store word"),
    (0x83, "vector add low 48"),
    (0x87, "vector subtract low 48"),
    (0x8A, "vector shift"),
    (0x90, "vector truncate"),
    (0x91, "vector floor"),
    (0x92, "vector ceiling"),
    (0x96, "vector contract"),
    (0x97, "vector rounded contract"),
    (0x98, "vector transmit"),
    (0xB0, "add, branch if equal"),
    (0xB1, "add, branch if not equal"),
    (0xB2, "add, branch if greater or equal"),
    (0xB3, "add, branch if less"),
    (0xB4, "add, branch if less or equal"),
    (0xB5, "add, branch if greater"),
    (0xF8, "move bytes left"),
];

// The name of a code.
pub fn of_code(code: u8) -> &'static str {
    NAMES
        .iter()
        .find(|row| row.0 == code)
        .map_or("not listed", |row| row.1)
}
