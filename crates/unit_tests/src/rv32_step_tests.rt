//! Turns over a small memory, with values from the RISC-V unprivileged manual.

use rv32_entries::{Entry, Predecoded};
use rv32_model::{Op, Prefetch};
use rv32_predecode::entry_in;
use rv32_step::operate::operate;
use rv32_step::*;
use tk_base::{
    Access, Addr, Bus, Denial, Regs, Rule, Width, a_store_is_put, number_in, put_number,
};

/// 64 bytes from address 0 on: the first 32 may be executed, the others written; all may be read. Its instructions may
/// be known.
#[derive(Drop)]
struct SmallMemory {
    bytes: [u8; 64],
    is_known: bool,
}

impl SmallMemory {
    /// Instruction words from address 0 on, and 0 elsewhere.
    fn of(words: &[u32], is_known: bool) -> SmallMemory {
        let mut bytes = [0; 64];
        for (i, word) in words.iter().enumerate() {
            if i < 16 {
                put_number(&mut bytes, i * 4, Width::Word, *word);
            }
        }
        SmallMemory { bytes, is_known }
    }
}

impl Bus for SmallMemory {
    ghost use Rattle.std.specs.Prelude.{[], slice_index};
    ghost use Rattle.unit_tests.specs.SmallMemory.{small_denies};

    ghost denies = { λ _. small_denies };

    ghost bytes = { λ m a. slice_index m.bytes a };

    ghost frame = { λ _. [] };

    fn fetch16(&self, at: Addr) -> Result<u16, Rule> {
        if at > 62 {
            return Err(Rule::NoRegion);
        }
        if at >= 32 {
            return Err(Rule::NoExecute);
        }
        Ok(number_in(&self.bytes, at as usize, Width::Half) as u16)
    }

    fn load(&self, at: Addr, width: Width) -> Result<u32, Rule> {
        if at > 64 - width.bytes() {
            return Err(Rule::NoRegion);
        }
        Ok(number_in(&self.bytes, at as usize, width))
    }

    fn store(&mut self, at: Addr, width: Width, value: u32) -> Result<(), Rule> {
        if at > 64 - width.bytes() {
            return Err(Rule::NoRegion);
        }
        if at < 32 {
            return Err(Rule::NoWrite);
        }
        a_store_is_put();
        put_number(&mut self.bytes, at as usize, width, value);
        Ok(())
    }
}

impl Prefetch for SmallMemory {
    fn word(&self, at: Addr) -> Option<u32> {
        if at > 28 {
            return None;
        }
        let first = number_in(&self.bytes, at as usize, Width::Half);
        let second = number_in(&self.bytes, at as usize + 2, Width::Half);
        Some(first + second * 65536)
    }
}

impl Predecoded for SmallMemory {
    ghost use Rattle.std.specs.Prelude.{if◌then◌else◌};

    ghost start = { λ _. 0 };

    ghost count = { λ m. if m.is_known then 16 else 0 };

    fn start(&self) -> Addr {
        0
    }

    fn count(&self) -> usize {
        if self.is_known { 16 } else { 0 }
    }

    fn entry(&self, place: usize) -> Entry {
        let entry = entry_in(&self.bytes, 2 * place);
        if usize::from(entry.reach()) > 32 - 2 * place {
            return Entry::Cold;
        }
        entry
    }

    fn load_near(&self, at: Addr, width: Width) -> Option<u32> {
        if at % width.bytes() != 0 || at > 64 - width.bytes() {
            return None;
        }
        Some(number_in(&self.bytes, at as usize, width))
    }

    fn store_near(&mut self, at: Addr, width: Width, value: u32) -> bool {
        if at % width.bytes() != 0 || at < 32 || at > 64 - width.bytes() {
            return false;
        }
        a_store_is_put();
        put_number(&mut self.bytes, at as usize, width, value);
        true
    }
}

#[test]
fn operations_give_the_values_of_the_manual(rt: HostRuntime) {
    let rows = [
        (Op::Add, 0xffff_ffff, 1, 0),
        (Op::Sub, 0, 1, 0xffff_ffff),
        (Op::Sll, 1, 33, 2),
        (Op::Slt, 0xffff_ffff, 0, 1),
        (Op::Sltu, 0xffff_ffff, 0, 0),
        (Op::Xor, 0xff00, 0x0ff0, 0xf0f0),
        (Op::Srl, 0x8000_0000, 36, 0x0800_0000),
        (Op::Sra, 0x8000_0000, 36, 0xf800_0000),
        (Op::Or, 0xff00, 0x0ff0, 0xfff0),
        (Op::And, 0xff00, 0x0ff0, 0x0f00),
    ];
    for (op, x, y, want) in rows {
        assert_eq!(rt; operate(op, x, y), want, "{x} {y}");
    }
}

#[test]
fn products_and_quotients_have_the_edge_cases_of_the_manual(rt: HostRuntime) {
    let rows = [
        (Op::Mul, 0xffff_ffff, 0xffff_ffff, 1),
        (Op::Mulh, 0xffff_ffff, 0xffff_ffff, 0),
        (Op::Mulh, 0x8000_0000, 0x8000_0000, 0x4000_0000),
        (Op::Mulhsu, 0xffff_ffff, 0xffff_ffff, 0xffff_ffff),
        (Op::Mulhu, 0xffff_ffff, 0xffff_ffff, 0xffff_fffe),
        (Op::Div, 0xffff_fff9, 2, 0xffff_fffd),
        (Op::Rem, 0xffff_fff9, 2, 0xffff_ffff),
        (Op::Div, 7, 0, 0xffff_ffff),
        (Op::Divu, 7, 0, 0xffff_ffff),
        (Op::Rem, 0xffff_fff9, 0, 0xffff_fff9),
        (Op::Remu, 7, 0, 7),
        (Op::Div, 0x8000_0000, 0xffff_ffff, 0x8000_0000),
        (Op::Rem, 0x8000_0000, 0xffff_ffff, 0),
        (Op::Divu, 0xffff_fff9, 2, 0x7fff_fffc),
        (Op::Remu, 0xffff_fff9, 2, 1),
    ];
    for (op, x, y, want) in rows {
        assert_eq!(rt; operate(op, x, y), want, "{x} {y}");
    }
}

#[test]
fn a_store_is_read_back_with_its_sign(rt: HostRuntime) {
    let words = [
        // sw x5, 40(x0)
        0x0250_2423,
        // lb x6, 43(x0)
        0x02b0_0303,
        // lbu x7, 43(x0)
        0x02b0_4383,
        // lh x8, 42(x0)
        0x02a0_1403,
        // lhu x9, 42(x0)
        0x02a0_5483,
        // lw x10, 40(x0)
        0x0280_2503,
    ];
    for is_known in [false, true] {
        let mut memory = SmallMemory::of(&words, is_known);
        let mut regs = Regs::at(0);
        regs.set(5, 0x80ff_7f01);
        let stretch = turns(&mut regs, &mut memory, 6);
        assert_eq!(rt; stretch.went, 6);
        assert_eq!(rt; stretch.end, TurnEnd::Went);
        for (n, value) in [
            (6, 0xffff_ff80),
            (7, 0x80),
            (8, 0xffff_80ff),
            (9, 0x80ff),
            (10, 0x80ff_7f01),
        ] {
            assert_eq!(rt; regs.get(n), value, "x{n}");
        }
        assert_eq!(rt; regs.pc(), 24);
    }
}

#[test]
fn pc_and_link_follow_the_manual(rt: HostRuntime) {
    let rows = [
        // lui x3, 0x12345
        (0x1234_51b7, 4, 3, 0x1234_5000),
        // auipc x3, 0x12345
        (0x1234_5197, 4, 3, 0x1234_5000),
        // jal x1, 8
        (0x0080_00ef, 8, 1, 4),
        // jalr x1, 21(x0): bit 0 is cleared
        (0x0150_00e7, 20, 1, 4),
        // blt x5, x0, 12: -1 is less than 0
        (0x0002_c663, 12, 5, 0xffff_ffff),
        // bltu x5, x0, 12: 0xffffffff is not
        (0x0002_e663, 4, 5, 0xffff_ffff),
        // fence rw, rw
        (0x0330_000f, 4, 5, 0xffff_ffff),
        // c.li x10, -1
        (0x0000_557d, 2, 10, 0xffff_ffff),
        // c.jalr x5: the link is pc + 2
        (0x0000_9282, 0xffff_fffe, 1, 2),
        // jal x0, 8 and jalr x0, 20(x0): no link is kept
        (0x0080_006f, 8, 0, 0),
        (0x0140_0067, 20, 0, 0),
        // c.j 8 and c.jr x5
        (0x0000_a021, 8, 0, 0),
        (0x0000_8282, 0xffff_fffe, 0, 0),
        // addi x0, x0, 0, addi x0, x5, 1 and c.nop
        (0x0000_0013, 4, 0, 0),
        (0x0012_8013, 4, 0, 0),
        (0x0000_0001, 2, 0, 0),
    ];
    for (word, pc, n, value) in rows {
        for is_known in [false, true] {
            let mut regs = Regs::at(0);
            regs.set(5, 0xffff_ffff);
            let mut memory = SmallMemory::of(&[word], is_known);
            assert_eq!(rt; turns(&mut regs, &mut memory, 1).end, TurnEnd::Went);
            assert_eq!(rt; regs.pc(), pc, "{word}");
            assert_eq!(rt; regs.get(n), value, "{word}");
        }
    }
}

#[test]
fn a_system_call_leaves_pc(rt: HostRuntime) {
    for is_known in [false, true] {
        let mut memory = SmallMemory::of(&[0x0000_0073], is_known);
        let mut regs = Regs::at(0);
        assert_eq!(rt; turn(&mut regs, &mut memory), TurnEnd::Call);
        assert_eq!(rt; regs, Regs::at(0));
        let stretch = turns(&mut regs, &mut memory, 2);
        assert_eq!(rt; stretch.went, 0);
        assert_eq!(rt; stretch.end, TurnEnd::Call);
    }
}

#[test]
fn each_denial_names_its_access_and_rule(rt: HostRuntime) {
    let rows = [
        // lw x6, 41(x0) and lh x6, 43(x0)
        (0x0290_2303, Access::Load, 41, Rule::Misaligned),
        (0x02b0_1303, Access::Load, 43, Rule::Misaligned),
        // sh x5, 43(x0)
        (0x0250_15a3, Access::Store, 43, Rule::Misaligned),
        // lw x6, 64(x0), and lw x0, 64(x0), whose value nobody sees
        (0x0400_2303, Access::Load, 64, Rule::NoRegion),
        (0x0400_2003, Access::Load, 64, Rule::NoRegion),
        // sh x5, 0(x0)
        (0x0050_1023, Access::Store, 0, Rule::NoWrite),
        // ebreak
        (0x0010_0073, Access::Fetch, 0, Rule::Breakpoint),
        // fence.i, and the parcel of zeros
        (0x0000_100f, Access::Fetch, 0, Rule::Illegal),
        (0x0000_0000, Access::Fetch, 0, Rule::Illegal),
        // c.ebreak
        (0x0000_9002, Access::Fetch, 0, Rule::Breakpoint),
    ];
    for (word, access, address, rule) in rows {
        let denial = Denial {
            access,
            address,
            rule,
        };
        for is_known in [false, true] {
            let mut regs = Regs::at(0);
            let mut memory = SmallMemory::of(&[word], is_known);
            let stretch = turns(&mut regs, &mut memory, 3);
            assert_eq!(rt; stretch.went, 0, "{word}");
            assert_eq!(rt; stretch.end, TurnEnd::Trap(denial), "{word}");
            assert_eq!(rt; regs, Regs::at(0), "{word}");
        }
    }
}

#[test]
fn a_denied_fetch_names_its_parcel(rt: HostRuntime) {
    // the last word's upper half, taken as a first parcel, has low bits 11
    let words = [0, 0, 0, 0, 0, 0, 0, 0x0003_0000];
    for (pc, address, rule) in [
        (30, 32, Rule::NoExecute),
        (32, 32, Rule::NoExecute),
        (64, 64, Rule::NoRegion),
    ] {
        let mut regs = Regs::at(pc);
        let mut memory = SmallMemory::of(&words, true);
        let denial = Denial {
            access: Access::Fetch,
            address,
            rule,
        };
        assert_eq!(rt; turns(&mut regs, &mut memory, 1).end, TurnEnd::Trap(denial));
    }
}

#[test]
fn a_compressed_instruction_is_fetched_alone(rt: HostRuntime) {
    // c.li x10, -1 in the last parcel that may be executed
    let mut memory = SmallMemory::of(&[0, 0, 0, 0, 0, 0, 0, 0x557d_0000], true);
    let mut regs = Regs::at(30);
    assert_eq!(rt; turns(&mut regs, &mut memory, 1).end, TurnEnd::Went);
    assert_eq!(rt; regs.pc(), 32);
    assert_eq!(rt; regs.get(10), 0xffff_ffff);
}

#[test]
fn a_loop_goes_on_until_it_leaves_what_is_known(rt: HostRuntime) {
    let words = [
        // addi x5, x5, 3
        0x0032_8293,
        // sw x5, 60(x0)
        0x0250_2e23,
        // addi x6, x6, -1
        0xfff3_0313,
        // bne x6, x0, -12
        0xfe03_1ae3,
        // jal x1, 24: to 40, where nothing may be executed
        0x0180_00ef,
    ];
    for is_known in [false, true] {
        let mut memory = SmallMemory::of(&words, is_known);
        let mut regs = Regs::at(0);
        regs.set(6, 5);
        let stretch = turns(&mut regs, &mut memory, 100);
        assert_eq!(rt; stretch.went, 21);
        let denial = Denial {
            access: Access::Fetch,
            address: 40,
            rule: Rule::NoExecute,
        };
        assert_eq!(rt; stretch.end, TurnEnd::Trap(denial));
        assert_eq!(rt; (regs.pc(), regs.get(1), regs.get(5)), (40, 20, 15));
        assert_eq!(rt; number_in(&memory.bytes, 60, Width::Word), 15);
    }
}
