//! The requests of the drivers.
use crate::request::Request;
use grant_values::{
    Console, Random, RandomRequest, Storage, StorageRequest, WaitingRead, WaitingWrite,
};

impl Request for WaitingWrite {
    ghost use Rattle.driver_model.specs.Console.{console_writes};
    ghost use Rattle.std.specs.Prelude.{refl};

    type Value = Console;

    ghost request_kind = { console_writes };

    fn waiting_in(value: &Console) -> Option<WaitingWrite> {
        value.write
    }

    fn wait_in(self, value: &mut Console) {
        value.write = Some(self);
    }

    fn take_out(value: &mut Console) {
        value.write = None;
    }

    ghost none_at_first = { refl };
}

impl Request for WaitingRead {
    ghost use Rattle.driver_model.specs.Console.{console_reads};
    ghost use Rattle.std.specs.Prelude.{refl};

    type Value = Console;

    ghost request_kind = { console_reads };

    fn waiting_in(value: &Console) -> Option<WaitingRead> {
        value.read
    }

    fn wait_in(self, value: &mut Console) {
        value.read = Some(self);
    }

    fn take_out(value: &mut Console) {
        value.read = None;
    }

    ghost none_at_first = { refl };
}

impl Request for RandomRequest {
    ghost use Rattle.driver_model.specs.Random.{randoms};
    ghost use Rattle.std.specs.Prelude.{refl};

    type Value = Random;

    ghost request_kind = { randoms };

    fn waiting_in(value: &Random) -> Option<RandomRequest> {
        value.request
    }

    fn wait_in(self, value: &mut Random) {
        value.request = Some(self);
    }

    fn take_out(value: &mut Random) {
        value.request = None;
    }

    ghost none_at_first = { refl };
}

impl Request for StorageRequest {
    ghost use Rattle.driver_model.specs.Storage.{storages};
    ghost use Rattle.std.specs.Prelude.{refl};

    type Value = Storage;

    ghost request_kind = { storages };

    fn waiting_in(value: &Storage) -> Option<StorageRequest> {
        value.request
    }

    fn wait_in(self, value: &mut Storage) {
        value.request = Some(self);
    }

    fn take_out(value: &mut Storage) {
        value.request = None;
    }

    ghost none_at_first = { refl };
}
