// What the program says of itself.
use ge_edge::About;

/// What the program says of itself.
pub(crate) const ABOUT: About = About {
    help: HELP,
    version: "gridmaster 0.9\n",
};

const HELP: &str = "\
gridmaster, a cluster batch system after Sun Grid Engine 6.2

usage: gridmaster simulate             a script from standard input, replies to standard output
       gridmaster replay [-batch N]    the same over the cluster in spool.a and spool.b, N requests a sync
       gridmaster status               what the two files hold
       gridmaster generate N           the script that is made from a number of jobs
       gridmaster trial N              that script simulated, and counts of what became of it
       gridmaster serve PORT N         N connections answered at a port of this machine, over the two files
       gridmaster --help | --version

A script is requests, each behind a line '@MOMENT USER GROUP'. How a run ends: 0 done, 2 these words can't be read,
3 script too long, 4 the files hold no cluster, 5 files full, 6 input failed, 7 output failed, 8 a file failed or
another run holds it, 9 the port failed, 10 no memory. See gridmaster(1).
";
