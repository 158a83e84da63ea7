// The command that a value asks for.
ghost use Rattle.std.specs.Prelude.{◌≡◌};
ghost use Rattle.rules.specs.Mmu.{decode};
ghost use Rattle.commands.specs.Orders.{command_of};

use crate::Order;

pub fn decoded(value: u8) -> Order
    ensures { command_of result ≡ decode value }
{
    match value {
        0x00 => Order::Nothing,
        0x40 => Order::Reset,
        0x60 => Order::RemoveRx,
        0x80 => Order::RemoveAndRelease,
        0xa0 => Order::Release,
        0xc0 => Order::Enqueue,
        0xe0 => Order::ResetTx,
        0x20..=0x27 => Order::Allocate((value % 8 + 1) as u32),
        _ => Order::Unknown,
    }
}
