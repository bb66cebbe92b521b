//! Settings written as files that no command writes: with a joint prior, with utilities by profile, with groups of bidders, and with
//! what else was left out.
use md_toml::{read_setting, write_setting};
use std::alloc::Global;
use std::test::Fail;

// A setting file, and the same as it is written.
static WRITTEN: [(&str, &str); 4] = [
    // Two bidders whose types are not independent.
    (
        "format = \"mechanism-setting\"\nversion = 1\nkind = \"general\"\ntruth = \"bayes\"\nrational = \"interim\"\npayments = true\noutcomes = [\"keep\", \"first\", \"second\"]\nprior = [2, 1, 1, 2]\n[objective]\nrevenue = 1\n[[agent]]\nname = \"one\"\ntypes = [\"v1\", \"v2\"]\nutility = [[0, 1, 0], [0, 2, 0]]\n[[agent]]\nname = \"two\"\ntypes = [\"v1\", \"v2\"]\nutility = [[0, 0, 1], [0, 0, 2]]\n",
        "format = \"mechanism-setting\"\nkind = \"general\"\nno_deficit = false\noutcomes = [\"keep\", \"first\", \"second\"]\npayments = true\nprior = [2, 1, 1, 2]\nrational = \"interim\"\ntruth = \"bayes\"\nversion = 1\n\n[[agent]]\nname = \"one\"\noutside = [0, 0]\ntypes = [\"v1\", \"v2\"]\nutility = [[0, 1, 0], [0, 2, 0]]\n\n[[agent]]\nname = \"two\"\noutside = [0, 0]\ntypes = [\"v1\", \"v2\"]\nutility = [[0, 0, 1], [0, 0, 2]]\n\n[objective]\nrevenue = 1\nvalue = [0, 0, 0]\nwelfare = 0\n",
    ),
    // What the second agent gets depends on the type of the first.
    (
        "format = \"mechanism-setting\"\nversion = 2\nkind = \"general\"\ntruth = \"dominant\"\nrational = \"ex-post\"\npayments = false\nno_deficit = true\noutcomes = [\"no\", \"yes\"]\n[objective]\nwelfare = 1\n[[agent]]\nname = \"first\"\ntypes = [\"good\", \"bad\"]\nweights = [1, 2]\nutility = [[0, 0], [0, 0]]\n[[agent]]\nname = \"second\"\ntypes = [\"s\"]\nweights = [1]\noutside = [-3]\nutility_at = [[0, 1], [0, -1]]\n",
        "format = \"mechanism-setting\"\nkind = \"general\"\nno_deficit = true\noutcomes = [\"no\", \"yes\"]\npayments = false\nrational = \"ex-post\"\ntruth = \"dominant\"\nversion = 2\n\n[[agent]]\nname = \"first\"\noutside = [0, 0]\ntypes = [\"good\", \"bad\"]\nutility = [[0, 0], [0, 0]]\nweights = [1, 2]\n\n[[agent]]\nname = \"second\"\noutside = [-3]\ntypes = [\"s\"]\nutility_at = [[0, 1], [0, -1]]\nweights = [1]\n\n[objective]\nrevenue = 0\nvalue = [0, 0]\nwelfare = 1\n",
    ),
    (
        "format = \"mechanism-setting\"\nversion = 2\nkind = \"auction\"\nbidders = 2\nvalues = [2, 3, 6]\nweights = [2, 1, 1]\nwelfare = -5\n",
        "bidders = 2\nformat = \"mechanism-setting\"\nkeep = 0\nkind = \"auction\"\nrevenue = 1\nvalues = [2, 3, 6]\nversion = 1\nweights = [2, 1, 1]\nwelfare = -5\n",
    ),
    // A group whose bidder sells, and one of three bidders.
    (
        "format = \"mechanism-setting\"\nversion = 3\nkind = \"bidders\"\nwelfare = -5\n[[bidder]]\nname = \"one\"\nvalues = [-9, -4]\nweights = [2, 1]\n[[bidder]]\nname = \"two\"\ncount = 3\nvalues = [7]\nweights = [5]\nworth = 20\n",
        "format = \"mechanism-setting\"\nkeep = 0\nkind = \"bidders\"\nrevenue = 1\nslots = [1]\nversion = 3\nwelfare = -5\n\n[[bidder]]\ncount = 1\nname = \"one\"\nvalues = [-9, -4]\nweights = [2, 1]\nworth = 0\n\n[[bidder]]\ncount = 3\nname = \"two\"\nvalues = [7]\nweights = [5]\nworth = 20\n",
    ),
];

// Whether a file is read, and written as that text.
fn is_written(alloc: Global, file: &str, text: &str) -> bool {
    match read_setting(alloc, file.as_bytes()) {
        Ok(setting) => match write_setting(alloc, &setting) {
            Ok(written) => written.as_slice() == text.as_bytes(),
            Err(_) => false,
        },
        Err(_) => false,
    }
}

#[test]
fn settings_are_written_in_one_way(rt: HostRuntime) -> Result<(), Fail> {
    for (file, text) in &WRITTEN {
        assert!(rt; is_written(rt.alloc(), file, text), "at {file}");
        assert!(rt; is_written(rt.alloc(), text, text), "at {text}");
    }
    Ok(())
}
