// Replays recorded answers about expressions and forms: each file of data/ holds calls with what the documents, or the
// original Rust, answer to them, and a line for each file says how many were compared and how many differ. The answers in
// the files named wrong, and those that the program itself makes wrong, differ on purpose, and the lines must say so. It
// rests on `recorded_expressions`, `recorded_readings`, `recorded_stars` and `recorded_listings`, which compare; the formats
// of the files are in data/README.md.
#![tactic(auto)]

mod cases;
mod choices;
mod costs;
mod listings;
mod readings;
mod star_evaluations;

use recorded_listings::Asked;
use replay::items::replay_items;
use replay::refusals::Wrong;
use rules::FORM_FLAGS;
use std::io;
use std::rt::Files;

// What the listing of a form is asked to refuse: one flag more than a form has, and a buffer that lacks one place.
const REFUSED: Asked = Asked {
    flags: FORM_FLAGS + 1,
    lacking: 1,
};

// A file of each kind, in the order of the modules' names.
fn replay_files<R: Files + Print + Eprint>(rt: &R, paths: [&str; 6]) -> io::Result<()> {
    let [cases, readings, stars, costs, choices, listings] = paths;
    replay_items::<{ cases::HEAD }, _, _>(rt, cases, "cases", |file, head| {
        cases::is_same(file, head, Wrong::Nothing)
    })?;
    replay_items::<{ readings::HEAD }, _, _>(rt, readings, "readings", readings::is_same)?;
    replay_items::<{ star_evaluations::HEAD }, _, _>(
        rt,
        stars,
        "evaluations for 64 stars",
        star_evaluations::is_same,
    )?;
    replay_items::<{ costs::HEAD }, _, _>(rt, costs, "expressions", costs::is_same)?;
    replay_items::<{ choices::HEAD }, _, _>(rt, choices, "choices", choices::is_same)?;
    replay_items::<{ listings::HEAD }, _, _>(rt, listings, "forms", |file, head| {
        listings::is_same(file, head, REFUSED)
    })
}

// The cases with wrong numbers, and with wrong first results.
fn replay_wrong_cases<R: Files + Print + Eprint>(rt: &R) -> io::Result<()> {
    replay_items::<{ cases::HEAD }, _, _>(rt, "cases.bin", "wrong numbers", |file, head| {
        cases::is_same(file, head, Wrong::Number)
    })?;
    replay_items::<{ cases::HEAD }, _, _>(rt, "cases.bin", "wrong results", |file, head| {
        cases::is_same(file, head, Wrong::Place)
    })
}

// The listings of good forms as if they were refused.
fn replay_good_listings<R: Files + Print + Eprint>(rt: &R) -> io::Result<()> {
    replay_items::<{ listings::HEAD }, _, _>(
        rt,
        "listings.bin",
        "refusals of 16 flags",
        |file, head| listings::is_same(
            file,
            head,
            Asked {
                flags: FORM_FLAGS,
                ..REFUSED
            },
        ),
    )?;
    replay_items::<{ listings::HEAD }, _, _>(
        rt,
        "listings.bin",
        "refusals of enough room",
        |file, head| listings::is_same(
            file,
            head,
            Asked {
                lacking: 0,
                ..REFUSED
            },
        ),
    )
}

fn main(rt: HostRuntime) -> io::Result<()> {
    replay_files(
        &rt,
        [
            "cases.bin",
            "readings.bin",
            "stars.bin",
            "costs.bin",
            "choices.bin",
            "listings.bin",
        ],
    )?;
    replay_wrong_cases(&rt)?;
    replay_good_listings(&rt)?;
    replay_files(
        &rt,
        [
            "wrong_cases.bin",
            "wrong_readings.bin",
            "wrong_stars.bin",
            "wrong_costs.bin",
            "wrong_choices.bin",
            "wrong_listings.bin",
        ],
    )
}
