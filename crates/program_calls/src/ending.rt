// How a call ends.
ghost use Rattle.std.specs.Prelude.{◌≡◌, [], IfOk, OnOk};
ghost use Rattle.text_output.specs.Output.{Prints};
ghost use Rattle.program_calls.specs.Devices.{device_text};
ghost use Rattle.database_files.specs.Names.{device_name};
ghost use Rattle.program_calls.specs.Ending.{damaged_text, fault_text, kind_text, last_line, limit_text};
ghost use Rattle.program_calls.specs.Ending.{no_snapshot_text, status_of};
ghost use Rattle.program_calls.specs.OnTheWay.{ending_of, status_told};
ghost use Rattle.program_calls.specs.declared.ending.Ending.TheVariants as endings;

use crate::shape::put_shape;
use lists::{Memory, Sequence};
use outside::{Device, Failed, Sink};
use round_engine::{End, LimitName};
use serial_model::Decl;
use std::alloc::{AllocError, AllocFailed};
use text_output::Printer;
use tx_script::{FaultKind, ScriptFault};

/// How a call ends, unless the sink fails.
#[derive(Drop)]
pub enum Ending {
    /// Every round was run.
    Finished,
    /// The bytes are no script.
    NoScript(ScriptFault),
    /// The script declares other storages than the vault keeps.
    Shape {
        declared: Sequence<Decl>,
        kept: Sequence<Decl>,
    },
    /// The words ask for nothing that the program does.
    Usage,
    /// The source failed.
    ReadFault,
    /// This device can't be had.
    NoDevice(Device),
    /// What this device holds isn't in its format, from this byte on.
    Damaged {
        device: Device,
        at: u64,
    },
    /// This limit was met.
    AtLimit(LimitName),
    /// A growth was refused.
    NoMemory,
    /// The vault has no snapshot of this epoch.
    NoSnapshot(u32),
}

impl Ending {
    /// The program's status.
    pub(crate) fn status(&self) -> u8
        ensures { result ≡ status_of self.now }
    {
        match self {
            Ending::Finished => 0,
            Ending::NoScript(_) => 1,
            Ending::Shape { .. } => 1,
            Ending::Usage => 2,
            Ending::ReadFault => 3,
            Ending::NoDevice(_) => 5,
            Ending::Damaged { .. } => 6,
            Ending::AtLimit(_) => 7,
            Ending::NoMemory => 8,
            Ending::NoSnapshot(_) => 9,
        }
    }

    /// Adds the last line, if there is one.
    pub(crate) fn put<K: Sink>(&self, printer: &mut Printer<'_, K>) -> Result<(), Failed>
        ensures { Prints printer.old printer.new (last_line self.now) result }
    {
        match self {
            Ending::Finished => printer.put(b""),
            Ending::NoScript(fault) => put_fault(printer, *fault),
            Ending::Shape { declared, kept } => {
                put_shape(printer, declared.as_slice(), kept.as_slice())
            }
            Ending::Usage => printer.put(b"usage\n"),
            Ending::ReadFault => printer.put(b"read\n"),
            Ending::NoDevice(device) => put_device(printer, *device),
            Ending::Damaged { device, at } => put_damaged(printer, *device, *at),
            Ending::AtLimit(name) => printer.put(limit_text(*name)),
            Ending::NoMemory => printer.put(b"memory\n"),
            Ending::NoSnapshot(epoch) => put_no_snapshot(printer, *epoch),
        }
    }
}

impl From<AllocError> for Ending {
    ghost from_gives = { λ _ ending. ending ≡ endings.NoMemory };

    fn from(_error: AllocError) -> Ending {
        Ending::NoMemory
    }
}

impl From<Memory> for Ending {
    ghost from_gives = { λ _ ending. ending ≡ endings.NoMemory };

    fn from(_error: Memory) -> Ending {
        Ending::NoMemory
    }
}

impl<T: Drop> From<AllocFailed<T>> for Ending {
    ghost from_gives = { λ _ ending. ending ≡ endings.NoMemory };

    fn from(_error: AllocFailed<T>) -> Ending {
        Ending::NoMemory
    }
}

/// Prints the last line, and all that waits.
pub fn finish<K: Sink>(printer: &mut Printer<'_, K>, ending: Ending) -> Result<Ending, Failed>
    ensures prints { Prints printer.old printer.new (last_line ending) result }
    ensures empty { OnOk result (printer.new.waiting ≡ []) }
    ensures same { IfOk result (λ it. it ≡ ending) }
{
    ending.put(printer)?;
    printer.flush()?;
    Ok(ending)
}

/// How a run ends that a round ends.
pub(crate) fn ending_of(end: End) -> Ending
    ensures { result ≡ ending_of end }
{
    match end {
        End::Device(device) => Ending::NoDevice(device),
        End::Damaged { device, at } => Ending::Damaged { device, at },
        End::Limit { name, .. } => Ending::AtLimit(name),
        End::Memory => Ending::NoMemory,
    }
}

/// The program's status after a call: that of its ending, or 4 where the sink failed.
pub fn status_told(outcome: Result<Ending, Failed>) -> u8
    ensures { result ≡ status_told outcome }
{
    match outcome {
        Ok(ending) => ending.status(),
        Err(Failed) => 4,
    }
}

fn put_fault<K: Sink>(printer: &mut Printer<'_, K>, fault: ScriptFault) -> Result<(), Failed>
    ensures { Prints printer.old printer.new (fault_text fault) result }
{
    printer.put(b"script ")?;
    printer.put_number(fault.line as u64)?;
    printer.put(b" ")?;
    printer.put(kind_text(fault.kind))?;
    printer.put(b"\n")
}

fn put_device<K: Sink>(printer: &mut Printer<'_, K>, device: Device) -> Result<(), Failed>
    ensures { Prints printer.old printer.new (device_text device) result }
{
    printer.put(b"device ")?;
    put_name(printer, device)?;
    printer.put(b"\n")
}

fn put_damaged<K: Sink>(printer: &mut Printer<'_, K>, device: Device, at: u64) -> Result<(), Failed>
    ensures { Prints printer.old printer.new (damaged_text device at) result }
{
    printer.put(b"damaged ")?;
    put_name(printer, device)?;
    printer.put(b" ")?;
    printer.put_number(at)?;
    printer.put(b"\n")
}

fn put_no_snapshot<K: Sink>(printer: &mut Printer<'_, K>, epoch: u32) -> Result<(), Failed>
    ensures { Prints printer.old printer.new (no_snapshot_text epoch) result }
{
    printer.put(b"no snapshot ")?;
    printer.put_number(epoch as u64)?;
    printer.put(b"\n")
}

fn put_name<K: Sink>(printer: &mut Printer<'_, K>, device: Device) -> Result<(), Failed>
    ensures { Prints printer.old printer.new (device_name device) result }
{
    match device {
        Device::Save => printer.put(b"save"),
        Device::Snaps => printer.put(b"snaps"),
        Device::Bank(number) => {
            printer.put(b"bank")?;
            printer.put_number(number as u64)
        }
    }
}

fn kind_text(kind: FaultKind) -> &'static [u8]
    ensures { result.now ≡ kind_text kind }
{
    match kind {
        FaultKind::TooLong => b"TooLong",
        FaultKind::Word => b"Word",
        FaultKind::Number => b"Number",
        FaultKind::TooMany => b"TooMany",
        FaultKind::Declared => b"Declared",
        FaultKind::Kind => b"Kind",
        FaultKind::Range => b"Range",
    }
}

fn limit_text(name: LimitName) -> &'static [u8]
    ensures { result.now ≡ limit_text name }
{
    match name {
        LimitName::Epoch => b"limit epoch\n",
        LimitName::Draw => b"limit draw\n",
        LimitName::Bank => b"limit bank\n",
        LimitName::Snap => b"limit snap\n",
        LimitName::Height => b"limit height\n",
        LimitName::Sequence => b"limit sequence\n",
    }
}
