//! Worked cases of the definitions, computed from them alone: the code here does nothing. The bits were
//! put together by hand from the RISC-V unprivileged manual, "RV32/64G Instruction Set Listings" and
//! "RVC Instruction Set Listings".
ghost use Rattle.std.specs.Prelude.{◌≡◌, Some, None};
ghost use Rattle.tk_base.specs.declared.access.Access.TheVariants as accesses;
ghost use Rattle.tk_base.specs.declared.access.Rule.TheVariants as rules;
ghost use Rattle.tk_base.specs.declared.access.Width.TheVariants as widths;
ghost use Rattle.rv32_model.specs.declared.instr.Instr.TheVariants as instrs;
ghost use Rattle.rv32_model.specs.declared.instr.LoadKind.TheVariants as loads;
ghost use Rattle.rv32_model.specs.declared.instr.Op.TheVariants as ops;
ghost use Rattle.rv32_model.specs.declared.turn_end.TurnEnd.TheVariants as ends;
ghost use Rattle.rv32_model.specs.Instructions.{decoding};
ghost use Rattle.rv32_model.specs.Compressed.{decoding16};
ghost use Rattle.rv32_model.specs.UserTurn.{loaded, operation};
ghost use Rattle.rv32_model.specs.Worked.{worked_turn_of};

/// `addi x1, x0, -1`, `sw x5, 40(x2)` and `fence.i`, which this processor does not have.
#[tactic(auto, unfolding(rv32_model::specs::Instructions::decoding, rv32_model::specs::Instructions::instruction_table))]
fn words_by_the_table()
    ensures addi { decoding 0xfff00093 ≡ Some (instrs.OpImm ops.Add 1 0 0xffffffff) }
    ensures sw { decoding 0x02512423 ≡ Some (instrs.Store widths.Word 2 5 40) }
    ensures fence_i { decoding 0x0000100f ≡ None }
{}

/// `c.li x10, -1`, and a shift with bit 12 set, which RV32 does not have.
#[tactic(auto, unfolding(rv32_model::specs::Compressed::decoding16, rv32_model::specs::Compressed::compressed_table))]
fn parcels_by_the_table()
    ensures li { decoding16 0x557d ≡ Some (instrs.OpImm ops.Add 10 0 0xffffffff) }
    ensures slli { decoding16 0x1502 ≡ None }
{}

/// A division by zero, and a byte that is loaded with its sign.
fn values_of_the_manual()
    ensures divided { operation ops.Div 7 0 ≡ 0xffffffff }
    ensures remains { operation ops.Rem 7 0 ≡ 7 }
    ensures byte { loaded loads.Lb 0x80 ≡ 0xffffff80 }
{}

/// `sw x0, 1(x11)` where nothing may be stored: it is misaligned first. `ecall` leaves pc.
#[tactic(auto, unfolding(rv32_model::specs::UserTurn::user_turn, rv32_model::specs::UserTurn::on_word, rv32_model::specs::UserTurn::executed, rv32_model::specs::UserTurn::fetched, rv32_model::specs::UserTurn::instr_of, rv32_model::specs::Instructions::decoding, rv32_model::specs::Instructions::instruction_table))]
fn turns_end()
    ensures store { (worked_turn_of 0x0005a0a3).end ≡ ends.Trap (record {
      access = accesses.Store;
      address = 1;
      rule = rules.Misaligned;
    }) }
    ensures call { (worked_turn_of 0x00000073).end ≡ ends.Call }
    ensures pc { (worked_turn_of 0x00000073).regs.pc ≡ 0 }
{}

#[test]
fn the_definitions_give_the_worked_cases() {
    words_by_the_table();
    parcels_by_the_table();
    values_of_the_manual();
    turns_end();
}
