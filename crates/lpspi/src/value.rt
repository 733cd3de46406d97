// Calls that make no access and take no list: commands, clocks, fields.
use crate::names::{Command, Settings, Value};
use crate::result::Answer;
use manual::{Field, Register, Tcr};
use sequences::status::Status;
use std::io;
use words::clock::ClockConfigs;
use words::transaction;
use words::transaction::{LpspiError, Transaction};

// A frame of so many bits; more than 16 bits can say are refused as well.
fn frame(bits: u32) -> Result<Transaction, LpspiError> {
    let Ok(bits) = u16::try_from(bits) else {
        return Err(LpspiError::FrameSize);
    };
    Transaction::new(bits)
}

impl Command {
    pub(crate) fn transaction(self) -> Result<Transaction, LpspiError> {
        let command = frame(self.frame)?;
        Ok(
            command
                .with_bit_order(self.order)
                .with_mode(self.mode)
                .with_pcs(self.pcs),
        )
    }
}

impl Settings {
    // By the setters `set_..`.
    fn transaction(self) -> Result<Transaction, LpspiError> {
        let command = self.command;
        Ok(frame(command.frame)?.with_settings(transaction::Settings {
            byte_swap: self.byte_swap,
            order: command.order,
            receive_mask: self.receive_mask,
            transmit_mask: self.transmit_mask,
            continuous: self.continuous,
            continuing: self.continuing,
            mode: command.mode,
            pcs: command.pcs,
        }))
    }
}

// Where TCR is, its PCS in a word, and the word with another.
fn show_pcs(out: &impl Print, word: u32, pcs: u32) -> io::Result<()> {
    let field = Field::Tcr(Tcr::PCS);
    let (at, read, set) = (
        Register::TCR.offset(),
        field.read(word),
        field.set(pcs, word),
    );
    println!(out; "{at:02X} {read} {set:08X}")
}

// The flags of SR.
fn show_flags(out: &impl Print) -> io::Result<()> {
    let flags = [
        ("BUSY", Status::BUSY),
        ("DATA_MATCH", Status::DATA_MATCH),
        ("RECEIVE_ERROR", Status::RECEIVE_ERROR),
        ("TRANSMIT_ERROR", Status::TRANSMIT_ERROR),
        ("TRANSFER_COMPLETE", Status::TRANSFER_COMPLETE),
        ("FRAME_COMPLETE", Status::FRAME_COMPLETE),
        ("WORD_COMPLETE", Status::WORD_COMPLETE),
        ("RECEIVE_DATA", Status::RECEIVE_DATA),
        ("TRANSMIT_DATA", Status::TRANSMIT_DATA),
        (
            "both errors",
            Status::TRANSMIT_ERROR.union(Status::RECEIVE_ERROR),
        ),
    ];
    for (name, flag) in flags {
        println!(out; "{name} {:08X}", flag.bits())?;
    }
    Ok(())
}

// The clock's word, and the frequency of SCK in Hz.
fn show_clock(out: &impl Print, source: u32, configs: ClockConfigs) -> io::Result<()> {
    let (word, divider) = (configs.as_raw(), u32::from(configs.sckdiv) + 2);
    println!(out; "{word:08X} {}", source / divider)
}

pub(crate) fn show(out: &impl Print, call: Value) -> io::Result<()> {
    match call {
        Value::New(bits) => frame(bits).show(out),
        Value::Command(command) => command.transaction().show(out),
        Value::WithSettings(settings) => settings.transaction().show(out),
        Value::FromHz(source, clock) => match ClockConfigs::from_hz(source, clock) {
            Ok(configs) => show_clock(out, source, configs),
            Err(refusal) => refusal.show(out),
        },
        Value::TcrPcs(word, pcs) => show_pcs(out, word, pcs),
        Value::Flags => show_flags(out),
    }
}
