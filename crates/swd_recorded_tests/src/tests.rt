mod expect;
mod logged;
mod recorded;
mod remote;
mod serving;
