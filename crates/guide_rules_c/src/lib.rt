// The whole library for C: every call of the documents as one function, which `include/guide_rules.h` declares. A call returns the refusal's number,
// 0 for none, and stores its answer at the front of a lent block of 64-bit numbers: the results, or after a refusal the place alone. They rest on
// `c_tables`, `c_expressions` and `c_packages`, and each has the clauses of the call there that it makes. A static library exports the functions of
// one crate, so they stand here together. Their bodies stand below: each must-fail edit checks its whole crate, so that by a rule of this repository
// a crate with edits stays small (docs/DECISIONS.md, "two layers").
#![tactic(auto)]

ghost use Rattle.std.specs.Prelude.{◌≡◌, length};
ghost use Rattle.compiler.specs.Answers.{bytes_of};
ghost use Rattle.rules.specs.Calls;
ghost use Rattle.rules.specs.Outcome.{left, gives, ◌then◌};
ghost use Rattle.rule_package.specs.Calls.{write_rule, read_rule};
ghost use Rattle.answer_block.specs.Block.{Answers};
ghost use Rattle.answer_block.specs.Numbers as c;

// The coefficient words of a table, at the front of `out`.
#[unsafe(no_mangle)]
pub extern "C" fn rule_transform(
    flags: usize,
    table: &[u64],
    out: &mut [u64],
    answer: &mut [u64],
) -> u64
    ensures lent { out.new ≡ left out.old (Calls.transform flags table.now (length out.old)) }
    ensures answer { Answers c.entries (Calls.transform flags table.now (length out.old))
        answer.old result answer.new }
{
    c_tables::transform(flags, table, out, answer)
}

// The table of coefficients, one entry for each setting, at the front of `out`.
#[unsafe(no_mangle)]
pub extern "C" fn rule_way_back(
    flags: usize,
    coefficients: &[u64],
    out: &mut [u64],
    answer: &mut [u64],
) -> u64
    ensures lent { out.new ≡ left out.old (Calls.way_back flags coefficients.now (length out.old)) }
    ensures answer { Answers c.entries (Calls.way_back flags coefficients.now (length out.old))
        answer.old result answer.new }
{
    c_tables::way_back(flags, coefficients, out, answer)
}

// The monomials by count of ones, then mask, at the front of `out`.
#[unsafe(no_mangle)]
pub extern "C" fn rule_listing(
    flags: usize,
    coefficients: &[u64],
    out: &mut [u32],
    answer: &mut [u64],
) -> u64
    ensures lent { out.new ≡ left out.old
        (Calls.listing flags coefficients.now (length out.old) then (λ l. gives l.masks)) }
    ensures answer { Answers c.listing (Calls.listing flags coefficients.now (length out.old))
        answer.old result answer.new }
{
    c_tables::listing(flags, coefficients, out, answer)
}

// The cost of the raw form.
#[unsafe(no_mangle)]
pub extern "C" fn rule_raw_cost(flags: usize, coefficients: &[u64], answer: &mut [u64]) -> u64
    ensures answer { Answers c.alone (Calls.raw_costing flags coefficients.now)
        answer.old result answer.new }
{
    c_tables::raw_cost(flags, coefficients, answer)
}

// The expression of a table, at the front of `out`.
#[unsafe(no_mangle)]
pub extern "C" fn rule_compile(
    flags: usize,
    table: &[u64],
    out: &mut [u8],
    answer: &mut [u64],
) -> u64
    ensures lent { out.new ≡ left out.old
        (bytes_of (Calls.compile flags table.now (length out.old))) }
    ensures answer { Answers c.compilation (Calls.compile flags table.now (length out.old))
        answer.old result answer.new }
{
    c_tables::compile(flags, table, out, answer)
}

// The record at a place, or the end.
#[unsafe(no_mangle)]
pub extern "C" fn rule_read(flags: usize, bytes: &[u8], place: usize, answer: &mut [u64]) -> u64
    ensures answer { Answers c.reading (Calls.read flags bytes.now place)
        answer.old result answer.new }
{
    c_expressions::read(flags, bytes, place, answer)
}

// The value of an expression at one setting.
#[unsafe(no_mangle)]
pub extern "C" fn rule_evaluate(
    flags: usize,
    bytes: &[u8],
    setting: usize,
    answer: &mut [u64],
) -> u64
    ensures answer { Answers c.alone (Calls.evaluate flags bytes.now setting)
        answer.old result answer.new }
{
    c_expressions::evaluate(flags, bytes, setting, answer)
}

// The values of an expression for 64 stars, in one word.
#[unsafe(no_mangle)]
pub extern "C" fn rule_evaluate_stars(
    flags: usize,
    words: &[u64],
    bytes: &[u8],
    answer: &mut [u64],
) -> u64
    ensures answer { Answers c.alone (Calls.evaluate_stars flags words.now bytes.now)
        answer.old result answer.new }
{
    c_expressions::evaluate_stars(flags, words, bytes, answer)
}

// The cost, size and depth of an expression.
#[unsafe(no_mangle)]
pub extern "C" fn rule_cost(flags: usize, bytes: &[u8], answer: &mut [u64]) -> u64
    ensures answer { Answers c.costs (Calls.costing flags bytes.now)
        answer.old result answer.new }
{
    c_expressions::cost(flags, bytes, answer)
}

// Which of two expressions is the cheaper: 1 the first, 2 the second, 0 where the flag count or either is refused.
#[unsafe(no_mangle)]
pub extern "C" fn rule_cheaper(flags: usize, first: &[u8], second: &[u8]) -> u64
    ensures { result ≡ c.cheaper flags first.now second.now }
{
    c_expressions::cheaper(flags, first, second)
}

// The examination of an expression against a table.
#[unsafe(no_mangle)]
pub extern "C" fn rule_examine(flags: usize, table: &[u64], bytes: &[u8], answer: &mut [u64]) -> u64
    ensures answer { Answers c.alone (Calls.examine flags table.now bytes.now)
        answer.old result answer.new }
{
    c_expressions::examine(flags, table, bytes, answer)
}

// A rule of a package, at the front of `out`.
#[unsafe(no_mangle)]
pub extern "C" fn package_write(
    flags: usize,
    table: u64,
    bytes: &[u8],
    out: &mut [u8],
    answer: &mut [u64],
) -> u64
    ensures lent { out.new ≡ left out.old
        (write_rule (record { flags = flags; table = table; expression = bytes.now }) (length out.old)) }
    ensures answer { Answers c.entries
        (write_rule (record { flags = flags; table = table; expression = bytes.now }) (length out.old))
        answer.old result answer.new }
{
    c_packages::write(flags, table, bytes, out, answer)
}

// The rule of a package at a place, or the end.
#[unsafe(no_mangle)]
pub extern "C" fn package_read(bytes: &[u8], place: usize, answer: &mut [u64]) -> u64
    ensures answer { Answers c.package_reading (read_rule bytes.now place) answer.old result answer.new }
{
    c_packages::read(bytes, place, answer)
}
