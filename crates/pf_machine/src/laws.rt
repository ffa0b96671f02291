//! Laws of processes with their inboxes: functions with empty bodies, whose contracts are the laws.

ghost use Rattle.pf_machine.specs.Stays.{MessagesArrive, StatusStays, TurnsGoOn};

/// A process has the status that it had while others use the heap.
pub fn status_stays()
    ensures { StatusStays }
{}

/// A process has the status that it had where a message comes after the others.
pub fn messages_arrive()
    ensures { MessagesArrive }
{}

/// A turn may be made in parts: where the steps of one are used up, the process goes on with those of the next.
pub fn turns_go_on()
    ensures { TurnsGoOn }
{}
