// A ticket as people name it.
ghost use Rattle.std.specs.Prelude.{◌≤◌};

// The day of the year, the course and the serial number, each within its limits.
#[derive(Clone, Copy)]
pub(crate) struct TicketName {
    pub(crate) day: u16,
    pub(crate) course: u16,
    pub(crate) serial: u32,
    ghost first_day: { 1 ≤ day },
    ghost last_day: { day ≤ 365 },
    ghost first_course: { 1 ≤ course },
    ghost last_course: { course ≤ 999 },
    ghost first_serial: { 1 ≤ serial },
    ghost last_serial: { serial ≤ 99999999 },
}
