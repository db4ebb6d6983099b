//! Worked cases of the definitions, computed from them alone: the code here does nothing. The bytes
//! were put together by hand.
ghost use Rattle.std.specs.Prelude.{◌≡◌, [], ◌∷◌, ◌++◌, replicate};
ghost use Rattle.tk_base.specs.declared.kinds.PairKind.TheVariants.{Upcall, ReadWrite};
ghost use Rattle.grant_model.specs.Grants.{entered, pair_of, grant_of, with_grant, with_pair};
ghost use Rattle.grant_model.specs.Encoding.{encode_grants};
ghost use Rattle.unit_tests.specs.Areas.{empty_area};

/// The console is entered by an allow of its read-write buffer 1, of 8 bytes at `0x8000_0020`.
#[tactic(auto, unfolding(grant_model::specs::Grants::shape_of, grant_values::specs::Drivers::counts_of, grant_values::specs::Drivers::drivers))]
fn a_buffer_of_the_console()
    ensures { encode_grants (with_grant 1 (with_pair ReadWrite 1 (0x80000020, 8)) (entered 1 []))
        ≡ (1 ∷ 0 ∷ 0 ∷ 0 ∷ 96 ∷ 0 ∷ 0 ∷ 0 ∷ []) ++ replicate 48 0
        ++ (0x20 ∷ 0 ∷ 0 ∷ 0x80 ∷ 8 ∷ 0 ∷ 0 ∷ 0 ∷ []) ++ replicate 32 0 }
{}

/// All drivers with a grant, in an order and the other way round: the one entered last is lowest.
#[tactic(auto, unfolding(grant_model::specs::Grants::shape_of, grant_values::specs::Drivers::counts_of, grant_values::specs::Drivers::drivers))]
fn the_last_entered_is_lowest()
    ensures one_way { encode_grants (entered 0 (entered 0x50001 (entered 1 (entered 0x40001 []))))
        ≡ empty_area 0 0 48 ++ empty_area 1 5 64 ++ empty_area 1 0 96 ++ empty_area 1 4 48 }
    ensures the_other { encode_grants (entered 0x40001 (entered 1 (entered 0x50001 (entered 0 []))))
        ≡ empty_area 1 4 48 ++ empty_area 1 0 96 ++ empty_area 1 5 64 ++ empty_area 0 0 48 }
{}

#[test]
fn the_definitions_give_the_worked_bytes() {
    a_buffer_of_the_console();
    the_last_entered_is_lowest();
}
