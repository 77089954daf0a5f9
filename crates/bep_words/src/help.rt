//! How the help of the program and of each command ends.

pub(crate) const COMMANDS_HELP: &str =
    "Each command reads a document on standard input, as in 'syncaudit check < FILE'.\n\
     'syncaudit <COMMAND> --help' tells its exit statuses.\n\
     The pages and examples that help names are in share/doc/syncaudit where this program is installed, and in docs/ \
     and examples/ of its sources.";

pub(crate) const CHECK_HELP: &str =
    "The document FILE is a cut of the cluster with its certificate: documents.md describes it.\n\n\
     Example: syncaudit check < examples/one-equal-file.json\n\
     With --certify it answers as it would to what 'syncaudit certify' writes, and nothing is written in between.\n\n\
     Exit status: 0 settled, 1 not settled, 2 document refused, 3 usage or help, 4 out of memory, \
     5 read or write fault";

pub(crate) const FIRM_HELP: &str =
    "The document FILE is a cut of the cluster with its certificate: documents.md describes it, and reasons.md what \
     firm is.\n\n\
     Example: syncaudit firm < examples/same-bytes-concurrent-versions.json\n\
     With --certify it answers as it would to what 'syncaudit certify' writes, and nothing is written in between.\n\n\
     Exit status: 0 firm, 1 not firm, 2 document refused, 3 usage or help, 4 out of memory, \
     5 read or write fault";

pub(crate) const CONVERGE_HELP: &str =
    "The document FILE is a check document, whose certificate may be missing and isn't looked at: documents.md \
     describes it, and reasons.md what converging is.\n\n\
     Example: syncaudit converge < examples/file-not-pulled-yet.json\n\n\
     Exit status: 0 converging, 1 not converging, 2 document refused, 3 usage or help, 4 out of memory, \
     5 read or write fault";

pub(crate) const CERTIFY_HELP: &str =
    "The document FILE is a check document, whose certificate may be missing and isn't looked at: documents.md \
     describes it.\n\n\
     Example: syncaudit certify < examples/cut-alone.json\n\n\
     With --partial it leaves out the names that have no winner and tells them on standard error.\n\n\
     Exit status: 0 certificate written, 1 a name has no winner, 2 document refused, 3 usage or help, 4 out of memory, \
     5 read or write fault, 6 written without the names that have no winner";

pub(crate) const EXPLAIN_HELP: &str =
    "The document FILE is a cut of the cluster with its certificate: documents.md describes it, and reasons.md what \
     is told.\n\n\
     Example: syncaudit explain < examples/file-missing-in-store.json\n\
     With --firm it tells all that keeps it from being firm.\n\
     With --converge it tells all that keeps the cut from converging. The certificate isn't looked at then, and neither is \
     --firm.\n\
     With --certify it audits the cut under the winners of its names, and tells of each name without one.\n\
     With --json it writes one JSON document on a line: explanation.schema.json describes it.\n\n\
     Exit status: 0 settled, or firm, or converging, 1 not, 2 document refused, 3 usage or help, 4 out of memory, \
     5 read or write fault";

pub(crate) const ROWS_HELP: &str =
    "The stream FILE is a cut name by name, a header and then a row on each line: rows.md describes it. It may be of any length.\n\n\
     Example: syncaudit rows < examples/rows/in-step.jsonl\n\
     It answers as it reads: a line for each name at fault, then what 'syncaudit check --certify' writes. Where a line is refused, \
     what was answered before stands, and the last line tells its number and its fault.\n\
     With --firm a name that isn't firm has a line, too, and then comes what 'syncaudit firm --certify' writes.\n\
     With --converge a name that doesn't converge has a line, and then comes what 'syncaudit converge' writes. --firm isn't \
     looked at then.\n\
     With --explain all that fails at a name is told, with details, as 'syncaudit explain' tells it, with --certify or \
     --converge.\n\n\
     Exit status: 0 settled, or firm, or converging, 1 not, 2 a line refused, 3 usage or help, 4 out of memory, \
     5 read or write fault";

pub(crate) const RUN_HELP: &str =
    "The document FILE is a scenario, a cluster and its steps: documents.md describes it, and what is written.\n\n\
     Example: syncaudit run < examples/scenarios/conflict.json\n\
     With --document it writes the check document of the end: 'syncaudit check' audits it. Its status 0 says that \
     it was written, 1 that a name has no winner.\n\
     With --turns N, of 0 to 1000000, threads run the cluster after the steps: each device scans and pulls, and each \
     end of a link exchanges, N times. The last line says whether their logs are those of one run.\n\n\
     Exit status: 0 settled, 1 not settled, 2 document refused, 3 usage or help, 4 out of memory, \
     5 read or write fault";
