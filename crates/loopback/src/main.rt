//! Makes units of every case from bare numbers, writes them into bytes as one row and reads the
//! row back, shows one refusal of each cause, plans a stream and sends it by both methods, then lets
//! two listeners hear it.

#![tactic(auto)]

mod hearing;
mod refusals;
mod rows;
mod sending;
mod worked;

fn run(rt: &HostRuntime) -> anyhow::Result<()> {
    rows::show_am824(rt)?;
    rows::show_pack(rt)?;
    refusals::show(rt)?;
    sending::show(rt)?;
    hearing::show(rt)
}

fn main(rt: HostRuntime) -> anyhow::Result<()> {
    run(&rt)
}
