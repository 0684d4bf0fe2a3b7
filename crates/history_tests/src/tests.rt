mod alone;
mod asks;
mod batches;
mod counter;
mod threads;
