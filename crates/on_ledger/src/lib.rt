// The operations on the ledger and the prices. Their numbers are those of the lists that are replayed:
// an enum would be made of a number by one match and matched again, no plainer.
#![tactic(auto)]

use amount::Amount;
use fields::{amount, number, side, small, start};
use holding::Fill;
use position::{Booked, PositionLedger};
use told::Told;
use types::SYMBOLS;

// What became of a change; the ledger that it gave back takes the place of the one before.
fn changed(rt: &impl Print, change: Booked, ledger: &mut PositionLedger) {
    output::told(rt, Told::of(change.outcome));
    *ledger = change.ledger;
}

// Quantity, average and realized profit of a symbol.
fn position(rt: &impl Print, ledger: &PositionLedger, symbol: u32) {
    let i = symbol as usize;
    if i < SYMBOLS {
        output::amount(
            rt,
            Amount {
                value: ledger.quantities[i],
            },
        );
        output::value(rt, u64::from(ledger.averages[i]));
        output::amount(
            rt,
            Amount {
                value: ledger.realized[i],
            },
        );
    }
}

fn fill(line: &[u8]) -> Fill {
    Fill {
        symbol: small(line, 1),
        side: side(line, 2),
        quantity: small(line, 3),
        price: small(line, 4),
        commission: amount(line, 5, 6),
    }
}

// A fill that is taken shows the position that it makes, and the cash.
fn filled(rt: &impl Print, ledger: &mut PositionLedger, line: &[u8]) {
    let booked = ledger.apply_fill(fill(line));
    changed(rt, booked, ledger);
    if let Ok(()) = booked.outcome {
        position(rt, ledger, small(line, 1));
        output::amount(rt, ledger.cash);
    }
}

// The fill whose fields begin behind so many others.
fn fill_after(line: &[u8], index: usize) -> Fill {
    fill(&line[start(line, index)..])
}

// Four fills in one call, over a lent list: how many were taken, and the cash.
fn book_four(rt: &impl Print, ledger: &mut PositionLedger, line: &[u8]) {
    let day = day::apply_four(
        *ledger,
        [
            fill(line),
            fill_after(line, 6),
            fill_after(line, 12),
            fill_after(line, 18),
        ],
    );
    *ledger = day.ledger;
    output::told(rt, Told::of(day.outcome));
    output::value(rt, day.taken);
    output::amount(rt, ledger.cash);
}

fn worth(ledger: &PositionLedger, prices: &[u32], line: &[u8]) -> Told {
    match number(line, 1) {
        0 => Told::of(valuation::unrealized_pnl_total(*ledger, prices)),
        1 => Told::of(valuation::net_liquidation_value(*ledger, prices)),
        2 => Told::of(valuation::net_market_exposure(*ledger, prices)),
        _ => Told::of(valuation::delta_neutral_check(*ledger, prices)),
    }
}

// What one position makes at a price.
fn unrealized(ledger: &PositionLedger, line: &[u8]) -> Told {
    Told::of(valuation::checked_unrealized_pnl(*ledger, small(line, 1), small(line, 2)))
}

// Another position of a symbol, with which the record may be no ledger.
fn set_position(rt: &impl Print, ledger: &mut PositionLedger, line: &[u8]) {
    let i = small(line, 1) as usize;
    if i < SYMBOLS {
        ledger.quantities[i] = amount(line, 2, 3).value;
        ledger.averages[i] = small(line, 4);
        ledger.realized[i] = amount(line, 5, 6).value;
        output::number(rt, 0);
    } else {
        output::put(rt, b"?");
    }
}

// Cash, commission paid, and the position of a symbol, as they stand in the record.
fn shown(rt: &impl Print, ledger: &PositionLedger, symbol: u32) {
    output::number(rt, 0);
    output::amount(rt, ledger.cash);
    output::amount(rt, ledger.commission);
    position(rt, ledger, symbol);
}

pub fn step(
    rt: &impl Print,
    ledger: &mut PositionLedger,
    prices: &[u32; 32],
    kind: u64,
    line: &[u8],
) {
    match kind {
        6 => changed(rt, PositionLedger::new(amount(line, 1, 2)), ledger),
        7 => filled(rt, ledger, line),
        8 => changed(rt, ledger.deposit(amount(line, 1, 2)), ledger),
        9 => output::told(rt, unrealized(ledger, line)),
        11 => output::told(rt, worth(ledger, prices, line)),
        19 => set_position(rt, ledger, line),
        20 => shown(rt, ledger, small(line, 1)),
        28 => book_four(rt, ledger, line),
        _ => output::put(rt, b"?"),
    }
}

// Another price of a symbol.
pub fn price(rt: &impl Print, prices: &mut [u32; 32], line: &[u8]) {
    let symbol = small(line, 1) as usize;
    if symbol < SYMBOLS {
        prices[symbol] = small(line, 2);
        output::number(rt, 0);
    } else {
        output::put(rt, b"?");
    }
}
