//! One call of each command over files in memory, with what it says. What is printed is worked out by hand, but for the long
//! texts, of which the begin stands here.
use crate::answers::{ONE_BUYER_ANSWER, ONE_TYPE_TABLE, POSTED_PRICE_ANSWER, PRICE_ABOVE_VALUE};
use crate::settings::{
    ONE_BUYER, ONE_BUYER_SALE, ONE_TYPE, OUT_OF_REACH, POSTED_PRICE, TWO_BIDDERS, VOTE,
};
use md_ports::MemShelf;
use std::alloc::{AllocError, Global};

/// A call: its words, how many files it reads, its status, and how what it says begins.
pub(crate) type Call = (&'static [&'static str], u32, u8, &'static str);

/// No mechanism gives the agent what it has outside, as the first row shows.
const REACH_TREE: &str = "answer,1,determ,infeasible\nleaf,infeasible\nrow,0,1\nend\n";

/// As the first row shows.
const REACH_FAIR: &str = "answer,1,fair,infeasible\nrow,0,1\nend\n";

/// As the first row shows, whatever the designer asks for.
const REACH_REQUIRED: &str = "answer,1,required,infeasible\nwelfare,least,1,1\nrow,0,1\nend\n";

const WELFARE: &str = "require,1\nwelfare,least,1,1\nend\n";

/// The first voter decides.
pub(crate) const FIRST_VOTER: &str =
    "answer,1,general,table\ntable,1\nlottery,l,l,1,0\nlottery,l,r,1,0\nlottery,r,l,0,1\nlottery,r,r,0,1\nend\n";

const PIVOTS: &str = "pivot,4,0\npivot,1,1\nend\n";

/// That of the price that brings most, by which its answer comes.
const BASIS: &str = "column,0\ncolumn,1\ncolumn,3\ncolumn,4\ncolumn,5\nslack,0\nend\n";

const HIGHER_VALUE: &str = "interim,4\nodds,0,3\nend\n";

/// A bidder with the value 2 has one of two units for 2.
const TWO_UNITS: &str =
    "answer,1,units,optimal\nvalue,2,1\ninterim,1\nodds,0,1\npays,0,2\nmass,0,2,0,2\nmass,1,1,0,2\nmass,2,0,0,0\ncut,2\nbound,1\nrow,1,0,1\nrow,2,0,2\nrow,4,0,2\nend\n";

const ALWAYS: &str = "interim,1\nodds,1,1\nend\n";

/// The same as a sale.
const ONE_BUYER_SALE_ANSWER: &str =
    "answer,1,asym,optimal\nvalue,5,2\ninterim,1\nodds,buyer,0,1\npays,buyer,0,3\nmass,low,0\nmass,high,1\ncut,1\ncut,2\nbound,1\nrow,2,0,1\nrow,3,0,1\nrow,5,0,1\nend\n";

static FILES: [(&str, &str); 22] = [
    ("one", ONE_TYPE),
    ("one-table", ONE_TYPE_TABLE),
    ("price", POSTED_PRICE),
    ("price-answer", POSTED_PRICE_ANSWER),
    ("above", PRICE_ABOVE_VALUE),
    ("pivots", PIVOTS),
    ("basis", BASIS),
    ("vote", VOTE),
    ("first", FIRST_VOTER),
    ("reach", OUT_OF_REACH),
    ("reach-tree", REACH_TREE),
    ("reach-fair", REACH_FAIR),
    ("reach-required", REACH_REQUIRED),
    ("welfare", WELFARE),
    ("buyer", ONE_BUYER),
    ("buyer-answer", ONE_BUYER_ANSWER),
    ("bidders", TWO_BIDDERS),
    ("bidders-units", TWO_UNITS),
    ("sale", ONE_BUYER_SALE),
    ("sale-answer", ONE_BUYER_SALE_ANSWER),
    ("higher", HIGHER_VALUE),
    ("always", ALWAYS),
];

/// The calls. The last ones are refused.
pub(crate) static CALLS: [Call; 51] = [
    (&["audit", "one", "one-table"], 2, 0, "admissible\n"),
    (
        &["audit", "price", "above"],
        2,
        20,
        "broken,truth/buyer/high/low/high,-1,0\n",
    ),
    (&["check", "price", "price-answer"], 2, 0, "valid\n"),
    (&["check", "buyer", "buyer-answer"], 2, 0, "valid\n"),
    (&["solve", "price"], 1, 0, POSTED_PRICE_ANSWER),
    (&["solve", "buyer"], 1, 0, ONE_BUYER_ANSWER),
    (
        &["solve", "reach"],
        1,
        10,
        "answer,1,general,infeasible\nrow,0,1\nend\n",
    ),
    (
        &["fair", "reach"],
        1,
        10,
        "answer,1,fair,infeasible\nrow,0,1\nend\n",
    ),
    (
        &["find", "price"],
        1,
        0,
        "answer,1,general,optimal\nvalue,3,2\n",
    ),
    (
        &["find", "price", "--from", "basis"],
        2,
        0,
        POSTED_PRICE_ANSWER,
    ),
    (
        &["findfair", "vote"],
        1,
        0,
        "answer,1,fair,optimal\nvalue,3,4\n",
    ),
    (
        &["rows", "reach"],
        1,
        0,
        "program,1,2\ncost\nrow,0,rational/a/t,atmost,-1\nrow,1,profile/t,exact,1,0,1\nend\n",
    ),
    (&["rows", "buyer"], 1, 0, "program,6,6\ncost,0,-2,1,-2,"),
    (&["replay", "price", "pivots"], 2, 0, "basis,0,1,4\n"),
    (
        &["realise", "bidders", "higher"],
        2,
        0,
        "realise,4\nmass,0,2,0,4\nmass,1,1,0,8\nmass,2,0,0,0\nend\n",
    ),
    (&["realise", "bidders", "always"], 2, 21, "violated,3,4,1\n"),
    (
        &["run", "vote", "first", "r,l", "0", "0"],
        2,
        0,
        "outcome,b\n",
    ),
    (
        &["run", "price", "price-answer", "high", "0", "0"],
        2,
        0,
        "outcome,sell\npays,1,3\n",
    ),
    (
        &["run", "buyer", "buyer-answer", "3", "0", "0"],
        2,
        0,
        "outcome,1\npays,1,3\n",
    ),
    (&["report", "price", "above"], 2, 0, "value,2,1\n"),
    (&["report", "buyer", "buyer-answer"], 2, 0, "value,5,2\n"),
    (&["report", "sale", "sale-answer"], 2, 0, "value,5,2\n"),
    (
        &["run", "sale", "sale-answer", "high", "0", "0"],
        2,
        0,
        "outcome,sell\npays,1,3\n",
    ),
    (
        &["report", "bidders", "bidders-units", "--units", "2"],
        2,
        0,
        "value,2,1\n",
    ),
    (
        &[
            "run",
            "bidders",
            "bidders-units",
            "2,2",
            "0",
            "0",
            "--units",
            "2",
        ],
        2,
        0,
        "wins,1\nwins,2\npays,1,2,2\n",
    ),
    (
        &["iron", "buyer"],
        1,
        0,
        "answer,1,auction,optimal\nvalue,5,2\n",
    ),
    (&["asym", "sale"], 1, 0, ONE_BUYER_SALE_ANSWER),
    (
        &["units", "bidders", "2"],
        1,
        0,
        "answer,1,units,optimal\nvalue,2,1\ninterim,",
    ),
    (
        &["check", "bidders", "bidders-units", "--units", "2"],
        2,
        0,
        "valid\n",
    ),
    (
        &["threshold", "bidders", "2"],
        1,
        0,
        "threshold,1\nunits,2\nvalue,2,1\nrevenue,2,1\nwelfare,2,1\nreserve,2\npool,2,2\nend\n",
    ),
    (
        &["award", "bidders", "1", "2,1", "0"],
        1,
        0,
        "chance,1,1,1\nchance,2,0,1\nprice,1,2,1\nwins,1\nend\n",
    ),
    (
        &["determ", "reach"],
        1,
        10,
        "answer,1,determ,infeasible\nleaf,infeasible\nrow,0,1\nend\n",
    ),
    (&["determcheck", "reach", "reach-tree"], 2, 0, "valid\n"),
    (&["check", "reach", "reach-fair"], 2, 0, "valid\n"),
    (
        &["require", "reach", "welfare"],
        2,
        10,
        "answer,1,required,infeasible\nwelfare,least,1,1\nrow,",
    ),
    (&["check", "reach", "reach-required"], 2, 0, "valid\n"),
    (&["check", "sale", "sale-answer"], 2, 0, "valid\n"),
    (&["make", "2"], 0, 0, "format = \"mechanism-setting\"\n"),
    (&["drill", "2"], 0, 0, "drill,2,general,optimal,"),
    (
        &["asym", "price"],
        1,
        65,
        "mechdes: setting refused: not a sale\n",
    ),
    (
        &["check", "price", "sale-answer"],
        2,
        66,
        "mechdes: answer refused: line 1: field 3\n",
    ),
    (&["solve"], 0, 64, "mechdes: usage\n"),
    (&["make", "1000000"], 0, 67, "mechdes: number refused\n"),
    (
        &["units", "bidders", "13"],
        0,
        67,
        "mechdes: number refused\n",
    ),
    (
        &["award", "bidders", "1", "2,2", "2"],
        1,
        67,
        "mechdes: draw refused\n",
    ),
    (
        &["run", "vote", "first", "r,m", "0", "0"],
        2,
        67,
        "mechdes: profile refused\n",
    ),
    (
        &["audit", "buyer", "buyer-answer"],
        1,
        65,
        "mechdes: setting refused: other kind\n",
    ),
    (
        &["solve", "pivots"],
        1,
        65,
        "mechdes: setting refused: not toml\n",
    ),
    (
        &["check", "price", "pivots"],
        2,
        66,
        "mechdes: answer refused: line 1: record\n",
    ),
    (
        &["find", "reach", "--from", "basis"],
        2,
        66,
        "mechdes: answer refused: line 2: field 2\n",
    ),
    (
        &["replay", "price", "one-table"],
        2,
        66,
        "mechdes: answer refused: line 1: record\n",
    ),
];

/// The files of all calls.
pub(crate) fn shelf(alloc: Global) -> Result<MemShelf, AllocError> {
    let mut shelf = MemShelf::new(alloc);
    for (name, text) in &FILES {
        shelf.put(name, text.as_bytes())?;
    }
    Ok(shelf)
}
