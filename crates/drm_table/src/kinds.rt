//! The columns of the table's rows, and the call of a row and its fields.

ghost use Rattle.std.specs.Prelude.{◌≡◌, ◌≤◌, length};
ghost use Rattle.drm_table.specs.Fields.{IsShort, layout_of};
ghost use Rattle.drm_table.specs.Table.{call_with, kind_family, kind_layout, kind_number, call_kind_of, call_kind_of_word, kind_row, kind_word};

use crate::calls::{Call, CallKind, rows};
use crate::fields::{Field, Layout};
use crate::rows::{Family, Row};

impl CallKind {
    /// Returns the row of the table.
    pub fn row(self) -> Row
        ensures number { result.number ≡ (kind_row self).number }
        ensures name { result.name.now ≡ (kind_row self).name }
        ensures word { result.word.now ≡ (kind_row self).word }
        ensures flags { result.flags ≡ (kind_row self).flags }
        ensures layout { layout_of result.layout ≡ (kind_row self).layout }
        ensures family { result.family ≡ (kind_row self).family }
    {
        rows()[self as usize]
    }

    /// Returns the number of the call (drm-uapi; 0x40 to 0x45 are own).
    pub fn number(self) -> u16
        ensures { result ≡ kind_number self }
    {
        self.row().number
    }

    /// Returns the word of a script's line (own).
    pub fn word(self) -> &'static [u8]
        ensures { result.now ≡ kind_word self }
    {
        self.row().word
    }

    /// Returns the layout of the fields.
    pub fn layout(self) -> Layout
        ensures layout { layout_of result ≡ kind_layout self }
        ensures short { IsShort (layout_of result) }
    {
        self.row().layout
    }

    /// Returns the family. A function of the family carries the call out.
    pub fn family(self) -> Family
        ensures { result ≡ kind_family self }
    {
        self.row().family
    }

    /// Returns the kind with this number, or `None` if no row has it.
    #[tactic(auto, unfolding(crate::specs::Table::call_kind_of, crate::specs::Table::kind_row))]
    pub fn of_number(number: u16) -> Option<CallKind>
        ensures { result ≡ call_kind_of number }
    {
        match number {
            0x00 => Some(CallKind::Version),
            0x02 => Some(CallKind::GetMagic),
            0x09 => Some(CallKind::GemClose),
            0x0A => Some(CallKind::GemFlink),
            0x0B => Some(CallKind::GemOpen),
            0x0C => Some(CallKind::GetCap),
            0x0D => Some(CallKind::SetClientCap),
            0x11 => Some(CallKind::AuthMagic),
            0x1E => Some(CallKind::SetMaster),
            0x1F => Some(CallKind::DropMaster),
            0x2D => Some(CallKind::PrimeHandleToFd),
            0x2E => Some(CallKind::PrimeFdToHandle),
            0x40 => Some(CallKind::BufCreate),
            0x41 => Some(CallKind::StampWrite),
            0x42 => Some(CallKind::StampRead),
            0x43 => Some(CallKind::TokenClose),
            0x44 => Some(CallKind::ListHandles),
            0x45 => Some(CallKind::Audit),
            0xA0 => Some(CallKind::GetResources),
            0xA1 => Some(CallKind::GetCrtc),
            0xA2 => Some(CallKind::SetCrtc),
            0xA6 => Some(CallKind::GetEncoder),
            0xA7 => Some(CallKind::GetConnector),
            0xAD => Some(CallKind::GetFb),
            0xAE => Some(CallKind::AddFb),
            0xAF => Some(CallKind::RmFb),
            0xB2 => Some(CallKind::CreateDumb),
            0xB4 => Some(CallKind::DestroyDumb),
            0xB5 => Some(CallKind::GetPlaneResources),
            0xB6 => Some(CallKind::GetPlane),
            0xB7 => Some(CallKind::SetPlane),
            0xC6 => Some(CallKind::CreateLease),
            0xC7 => Some(CallKind::ListLessees),
            0xC8 => Some(CallKind::GetLease),
            0xC9 => Some(CallKind::RevokeLease),
            _ => None,
        }
    }

    /// Returns the kind with this word of a script, or `None` if no row has it (own).
    #[tactic(auto, unfolding(crate::specs::Table::call_kind_of_word))]
    pub fn of_word(word: &[u8]) -> Option<CallKind>
        ensures { result ≡ call_kind_of_word word.now }
    {
        CallKind::ALL
            .iter()
            .copied()
            .find(|kind| kind.word() == word)
    }

    /// Returns the call with this row and these fields, 32 at most.
    /// Returns `None` if number or widths of the fields differ from those of the row.
    #[tactic(auto, unfolding(crate::specs::Table::call_with))]
    pub fn call(self, fields: &[Field]) -> Option<Call>
        requires { length fields.now ≤ 32 }
        ensures { result ≡ call_with self fields.now }
    {
        match self.family() {
            Family::Device => self.device_call(fields),
            Family::Masters => self.master_call(fields),
            Family::Buffers => self.buffer_call(fields),
            Family::Sharing => self.share_call(fields),
            Family::Modes => self.mode_call(fields),
            Family::Framebuffers => self.framebuffer_call(fields),
            Family::Leases => self.lease_call(fields),
        }
    }
}
