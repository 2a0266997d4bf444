// The rows: each a struct of its fields in order, or a tag and the variant's fields.
mod cluster;
mod entries;
mod items;
mod job_row;
mod jobs;
mod queues;
mod settings;
mod task_sets;
mod tasks;
mod values;
