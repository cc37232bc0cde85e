// The kinds of call that a sample holds.
use crate::SampleError;
use std::fmt;

#[derive(Clone, Copy, Debug, PartialEq, Eq)]
pub enum Kind {
    PrepareBoot,
    ReadState,
    StateGetState,
    StateMarkUpdated,
    StateMarkDfu,
    StateMarkBooted,
    UpdaterGetState,
    UpdaterMarkUpdated,
    UpdaterMarkDfu,
    UpdaterMarkBooted,
    ReadDfu,
    WriteFirmware,
    PrepareUpdate,
    StateFrom,
}

impl Kind {
    pub const COUNT: usize = 14;

    // Each kind at its number.
    pub const ALL: [Kind; Kind::COUNT] = [
        Kind::PrepareBoot,
        Kind::ReadState,
        Kind::StateGetState,
        Kind::StateMarkUpdated,
        Kind::StateMarkDfu,
        Kind::StateMarkBooted,
        Kind::UpdaterGetState,
        Kind::UpdaterMarkUpdated,
        Kind::UpdaterMarkDfu,
        Kind::UpdaterMarkBooted,
        Kind::ReadDfu,
        Kind::WriteFirmware,
        Kind::PrepareUpdate,
        Kind::StateFrom,
    ];
}

impl TryFrom<u32> for Kind {
    type Error = SampleError;

    fn try_from(number: u32) -> Result<Self, SampleError> {
        let kind = Kind::ALL.get(number as usize).copied();
        kind.ok_or(SampleError::Broken)
    }
}

impl fmt::Display for Kind {
    fn fmt<W: fmt::Write>(&self, f: &mut fmt::Formatter<W>) -> fmt::Result {
        f.write_str(match self {
            Kind::PrepareBoot => "prepare_boot",
            Kind::ReadState => "read_state",
            Kind::StateGetState => "get_state of the firmware state",
            Kind::StateMarkUpdated => "mark_updated of the firmware state",
            Kind::StateMarkDfu => "mark_dfu of the firmware state",
            Kind::StateMarkBooted => "mark_booted of the firmware state",
            Kind::UpdaterGetState => "get_state of the updater",
            Kind::UpdaterMarkUpdated => "mark_updated of the updater",
            Kind::UpdaterMarkDfu => "mark_dfu of the updater",
            Kind::UpdaterMarkBooted => "mark_booted of the updater",
            Kind::ReadDfu => "read_dfu",
            Kind::WriteFirmware => "write_firmware",
            Kind::PrepareUpdate => "prepare_update",
            Kind::StateFrom => "State::from",
        })
    }
}
