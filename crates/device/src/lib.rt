// The device (01: drive): a fresh one, what it answers to a message, and the boot check.
#![tactic(auto, unfolding(crate::specs::Fields::step_in_place, machine::specs::Device::fresh_with))]

mod accept;
mod boot;
mod conditions;
mod judge;
mod place;
mod readers;
mod view;

ghost use Rattle.std.specs.Prelude.{◌≡◌};
ghost use Rattle.sha256.specs.Sha256.{digest};
ghost use Rattle.lms.specs.Lms.{valid};
ghost use Rattle.machine.specs.Answer.{Refused};
ghost use Rattle.machine.specs.Device.{fresh_with};
ghost use Rattle.machine.specs.Step.{step};
ghost use Rattle.device.specs.Fields.{device_of, lent, step_in_place};

pub use boot::boot_check;
pub use conditions::senseless;
use machine::{Answer, Device, Stage};
pub use readers::{accepted_blocks, answer_number, next_of};
pub use view::View;
use wire::{Manifest, Refusal};

// A fresh device: idle, with this model and key.
pub fn fresh(model: u32, key: [u8; lms::KEY_LEN]) -> Device
    ensures { result ≡ fresh_with model key }
{
    let manifest = Manifest {
        version: 0,
        block_len: 0,
        model: 0,
        serial: 0,
        image_len: 0,
        root: [0u8; merkle::HASH_LEN],
    };
    Device {
        model,
        key,
        stage: Stage::Idle,
        manifest,
        hashes: [0u8; merkle::HELD_LEN],
    }
}

// The answer to a message, the compressions that it reports, the budget that it was held against, and what it makes of stage and manifest. No Result with these in its
// Ok: count and budget are numbers in the result after a refusal too, by the contract and by 01.
#[derive(Drop)]
pub struct InPlaceOutcome {
    pub answer: Answer,
    pub compressions: u32,
    pub budget: u32,
    pub stage: Stage,
    pub manifest: Manifest,
}

// A refusal: stage and manifest stay, and the message reports no compressions.
fn refused(view: &View, refusal: Refusal, budget: u32) -> InPlaceOutcome
    ensures { result ≡ record { answer = Refused refusal; compressions = 0; budget = budget; stage = view.now.stage; manifest = view.now.manifest } }
{
    InPlaceOutcome {
        answer: Err(refusal),
        compressions: 0,
        budget,
        stage: view.stage,
        manifest: view.manifest,
    }
}

// Answers a message; key and hashes stay where the caller keeps them. Hashes of another length than the array's are no device's: refused 1. A refusal leaves
// state and flash as they were; nothing is written before the last test has passed.
pub fn receive_in_place(
    view: &View,
    hashes: &mut [u8],
    flash: &mut [u8],
    message: &[u8],
    budget: u32,
) -> InPlaceOutcome
    ensures { step_in_place budget (lent view.now hashes.old) flash.old message.now ≡ record { answer = result.answer; compressions = result.compressions; budget = result.budget; device = device_of view.now.model view.now.key.now result.stage result.manifest hashes.new; flash = flash.new } }
{
    let Some(hashes) = hashes.as_mut_array::<{ merkle::HELD_LEN }>() else {
        return refused(view, Refusal::State, budget);
    };
    let kind = wire::kind_of(message);
    match view.judge(hashes, kind, flash, message, budget) {
        Err(refusal) => refused(view, refusal, budget),
        Ok(compressions) => {
            let next = view.accept(hashes, kind, flash, message);
            InPlaceOutcome {
                answer: Ok(()),
                compressions,
                budget,
                stage: next.stage,
                manifest: next.manifest,
            }
        }
    }
}

// The answer to a message, with 01's "count and caller's budget as numbers in the result": the compressions that it reports and the budget that it was held
// against; and the device after it.
#[derive(Drop)]
pub struct Outcome {
    pub answer: Answer,
    pub compressions: u32,
    pub budget: u32,
    pub device: Device,
}

// Answers a message, which came with this budget of SHA-256 compressions, to a device that is handed over whole.
pub fn receive(mut device: Device, flash: &mut [u8], message: &[u8], budget: u32) -> Outcome
    ensures { step digest valid budget device flash.old message.now ≡ record { answer = result.answer; compressions = result.compressions; budget = result.budget; device = result.device; flash = flash.new } }
{
    let held = &mut device;
    let view = View {
        model: held.model,
        key: &held.key,
        stage: held.stage,
        manifest: held.manifest,
    };
    let after = receive_in_place(&view, &mut held.hashes, flash, message, budget);
    device.stage = after.stage;
    device.manifest = after.manifest;
    Outcome {
        answer: after.answer,
        compressions: after.compressions,
        budget: after.budget,
        device,
    }
}
