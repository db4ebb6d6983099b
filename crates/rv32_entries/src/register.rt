//! The name of a register.
ghost use Rattle.std.specs.Prelude.{◌≡◌, is_some, IfSome};
ghost use Rattle.rv32_entries.specs.Registers.{index_of, is_index, target_index, can_be_set};

/// One of the 32 registers. That it is no other number is known to the compiler too.
#[derive(Clone, Copy)]
pub enum Register {
    X0,
    X1,
    X2,
    X3,
    X4,
    X5,
    X6,
    X7,
    X8,
    X9,
    X10,
    X11,
    X12,
    X13,
    X14,
    X15,
    X16,
    X17,
    X18,
    X19,
    X20,
    X21,
    X22,
    X23,
    X24,
    X25,
    X26,
    X27,
    X28,
    X29,
    X30,
    X31,
}

impl Register {
    /// The register of a number, where there is one.
    pub fn of(number: u8) -> Option<Register>
        ensures register { IfSome result (λ register. index_of register ≡ number) }
        ensures is_one { is_some result ≡ is_index number }
    {
        match number {
            0 => Some(Register::X0),
            1 => Some(Register::X1),
            2 => Some(Register::X2),
            3 => Some(Register::X3),
            4 => Some(Register::X4),
            5 => Some(Register::X5),
            6 => Some(Register::X6),
            7 => Some(Register::X7),
            8 => Some(Register::X8),
            9 => Some(Register::X9),
            10 => Some(Register::X10),
            11 => Some(Register::X11),
            12 => Some(Register::X12),
            13 => Some(Register::X13),
            14 => Some(Register::X14),
            15 => Some(Register::X15),
            16 => Some(Register::X16),
            17 => Some(Register::X17),
            18 => Some(Register::X18),
            19 => Some(Register::X19),
            20 => Some(Register::X20),
            21 => Some(Register::X21),
            22 => Some(Register::X22),
            23 => Some(Register::X23),
            24 => Some(Register::X24),
            25 => Some(Register::X25),
            26 => Some(Register::X26),
            27 => Some(Register::X27),
            28 => Some(Register::X28),
            29 => Some(Register::X29),
            30 => Some(Register::X30),
            31 => Some(Register::X31),
            _ => None,
        }
    }

    /// Its number.
    #[inline(always)]
    pub fn number(self) -> u8
        ensures { result ≡ index_of self }
    {
        match self {
            Register::X0 => 0,
            Register::X1 => 1,
            Register::X2 => 2,
            Register::X3 => 3,
            Register::X4 => 4,
            Register::X5 => 5,
            Register::X6 => 6,
            Register::X7 => 7,
            Register::X8 => 8,
            Register::X9 => 9,
            Register::X10 => 10,
            Register::X11 => 11,
            Register::X12 => 12,
            Register::X13 => 13,
            Register::X14 => 14,
            Register::X15 => 15,
            Register::X16 => 16,
            Register::X17 => 17,
            Register::X18 => 18,
            Register::X19 => 19,
            Register::X20 => 20,
            Register::X21 => 21,
            Register::X22 => 22,
            Register::X23 => 23,
            Register::X24 => 24,
            Register::X25 => 25,
            Register::X26 => 26,
            Register::X27 => 27,
            Register::X28 => 28,
            Register::X29 => 29,
            Register::X30 => 30,
            Register::X31 => 31,
        }
    }
}

/// One of the 31 registers that can be set: each but x0. That it is no other number is known to the compiler too.
#[derive(Clone, Copy)]
pub enum Target {
    X1,
    X2,
    X3,
    X4,
    X5,
    X6,
    X7,
    X8,
    X9,
    X10,
    X11,
    X12,
    X13,
    X14,
    X15,
    X16,
    X17,
    X18,
    X19,
    X20,
    X21,
    X22,
    X23,
    X24,
    X25,
    X26,
    X27,
    X28,
    X29,
    X30,
    X31,
}

impl Target {
    /// The register of a number, where it can be set.
    pub fn of(number: u8) -> Option<Target>
        ensures target { IfSome result (λ target. target_index target ≡ number) }
        ensures can_be_set { is_some result ≡ can_be_set number }
    {
        match number {
            1 => Some(Target::X1),
            2 => Some(Target::X2),
            3 => Some(Target::X3),
            4 => Some(Target::X4),
            5 => Some(Target::X5),
            6 => Some(Target::X6),
            7 => Some(Target::X7),
            8 => Some(Target::X8),
            9 => Some(Target::X9),
            10 => Some(Target::X10),
            11 => Some(Target::X11),
            12 => Some(Target::X12),
            13 => Some(Target::X13),
            14 => Some(Target::X14),
            15 => Some(Target::X15),
            16 => Some(Target::X16),
            17 => Some(Target::X17),
            18 => Some(Target::X18),
            19 => Some(Target::X19),
            20 => Some(Target::X20),
            21 => Some(Target::X21),
            22 => Some(Target::X22),
            23 => Some(Target::X23),
            24 => Some(Target::X24),
            25 => Some(Target::X25),
            26 => Some(Target::X26),
            27 => Some(Target::X27),
            28 => Some(Target::X28),
            29 => Some(Target::X29),
            30 => Some(Target::X30),
            31 => Some(Target::X31),
            _ => None,
        }
    }

    /// Its number.
    #[inline(always)]
    pub fn number(self) -> u8
        ensures { result ≡ target_index self }
    {
        match self {
            Target::X1 => 1,
            Target::X2 => 2,
            Target::X3 => 3,
            Target::X4 => 4,
            Target::X5 => 5,
            Target::X6 => 6,
            Target::X7 => 7,
            Target::X8 => 8,
            Target::X9 => 9,
            Target::X10 => 10,
            Target::X11 => 11,
            Target::X12 => 12,
            Target::X13 => 13,
            Target::X14 => 14,
            Target::X15 => 15,
            Target::X16 => 16,
            Target::X17 => 17,
            Target::X18 => 18,
            Target::X19 => 19,
            Target::X20 => 20,
            Target::X21 => 21,
            Target::X22 => 22,
            Target::X23 => 23,
            Target::X24 => 24,
            Target::X25 => 25,
            Target::X26 => 26,
            Target::X27 => 27,
            Target::X28 => 28,
            Target::X29 => 29,
            Target::X30 => 30,
            Target::X31 => 31,
        }
    }
}
